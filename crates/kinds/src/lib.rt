// The kinds of subsection (crate: `DebugSubsectionKind`, whose names these are, in capitals), each number once. Whoever reads, decides over or writes a
// kind uses these names; an answer carries the number itself.
#![tactic(auto)]

ghost use Rattle.std.specs.Prelude.{◌≡◌};
ghost use Rattle.kinds.specs.Kind.{known_kinds};

pub const SYMBOLS: u32 = 0xf1;

pub const LINES: u32 = 0xf2;

pub const STRING_TABLE: u32 = 0xf3;

pub const FILE_CHECKSUMS: u32 = 0xf4;

pub const FRAME_DATA: u32 = 0xf5;

pub const INLINEE_LINES: u32 = 0xf6;

pub const CROSS_SCOPE_IMPORTS: u32 = 0xf7;

pub const CROSS_SCOPE_EXPORTS: u32 = 0xf8;

pub const IL_LINES: u32 = 0xf9;

pub const FUNC_MDTOKEN_MAP: u32 = 0xfa;

pub const TYPE_MDTOKEN_MAP: u32 = 0xfb;

pub const MERGED_ASSEMBLY_INPUT: u32 = 0xfc;

pub const COFF_SYMBOL_RVA: u32 = 0xfd;

// Skipped with its body.
pub const IGNORE: u32 = 0x8000_0000;

// The known kinds in the order of cvinfo.h. It is here so that each name is bound to its number: a decision over all of them would stay the same if
// two exchanged theirs.
pub fn known_kinds() -> [u32; 13]
    ensures { result ≡ known_kinds }
{
    [
        SYMBOLS,
        LINES,
        STRING_TABLE,
        FILE_CHECKSUMS,
        FRAME_DATA,
        INLINEE_LINES,
        CROSS_SCOPE_IMPORTS,
        CROSS_SCOPE_EXPORTS,
        IL_LINES,
        FUNC_MDTOKEN_MAP,
        TYPE_MDTOKEN_MAP,
        MERGED_ASSEMBLY_INPUT,
        COFF_SYMBOL_RVA,
    ]
}
