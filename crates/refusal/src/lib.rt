// Why a call refuses: document 01's table of refusal numbers, a case each, with what it carries.
//
// `told` of specs/Told.antt gives each case its number and its values; every promise about a refusal goes through it.
#![tactic(auto)]

ghost use Rattle.std.specs.Prelude.{◌≡◌};
ghost use Rattle.refusal.specs.Told.{told, number_of, carried_of};

// The longest area or stream that a call reads, in bytes: number 11.
pub const LONGEST: usize = 16_777_216;

#[derive(Clone, Copy)]
pub enum Refusal {
    // 1: a field, a counted body, padding or a name ends past its data.
    Cut,
    // 2: a subsection's kind is unknown.
    UnknownKind(u32),
    // 3: a checksum's kind is above 3.
    UnknownChecksumKind(u8),
    // 4: an export body is no multiple of 8 bytes.
    ExportLength,
    // 5: bit 31 of a reference is clear.
    NotACrossModuleRef(u32),
    // 6: a reference names no module or no word of it.
    CrossModuleRefNotFound(u32),
    // 7: a block's size is below 12, or its lines and columns exceed it.
    BlockSize,
    // 8: a section offset plus a line offset or a code size is above 4,294,967,295.
    OffsetTooLarge,
    // 9: a lookup in exports whose local indices do not strictly ascend.
    UnsortedExports,
    // 10: the lent room is too small.
    NoRoom,
    // 11: an area or a stream is above 16,777,216 bytes.
    TooLong,
    // 12: C11 lines, or a symbol signature that is not 4.
    OldFormat,
    // 13: a string table's signature is not 0xEFFEEFFE.
    NoStringTable,
    // 14: a string table's hash version is not 1 or 2.
    HashVersion,
    // 15: a module's symbols and C13 sizes together exceed its stream.
    ModuleSizes,
    // 16: the writer's place: an entry not of the last subsection's kind, a place past the buffer, or no plain area before it.
    WrongPlace,
    // 17: the writer's rule: an entry that would break a plain area.
    NotPlain,
    // 18: a file index equals the length of the checksum data.
    NoFile(u32),
    // 19: a slot of an order list is missing, or names no line subsection.
    WrongSlot,
}

// A refusal in numbers: document 01's, and what it carries or 0.
pub fn numbers(why: Refusal) -> (u64, u64)
    ensures { (result.0 ≡ number_of (told why)) × (result.1 ≡ carried_of (told why)) }
{
    match why {
        Refusal::Cut => (1, 0),
        Refusal::UnknownKind(kind) => (2, kind as u64),
        Refusal::UnknownChecksumKind(kind) => (3, kind as u64),
        Refusal::ExportLength => (4, 0),
        Refusal::NotACrossModuleRef(index) => (5, index as u64),
        Refusal::CrossModuleRefNotFound(index) => (6, index as u64),
        Refusal::BlockSize => (7, 0),
        Refusal::OffsetTooLarge => (8, 0),
        Refusal::UnsortedExports => (9, 0),
        Refusal::NoRoom => (10, 0),
        Refusal::TooLong => (11, 0),
        Refusal::OldFormat => (12, 0),
        Refusal::NoStringTable => (13, 0),
        Refusal::HashVersion => (14, 0),
        Refusal::ModuleSizes => (15, 0),
        Refusal::WrongPlace => (16, 0),
        Refusal::NotPlain => (17, 0),
        Refusal::NoFile(index) => (18, index as u64),
        Refusal::WrongSlot => (19, 0),
    }
}

pub fn number(why: Refusal) -> u64
    ensures { result ≡ number_of (told why) }
{
    numbers(why).0
}
