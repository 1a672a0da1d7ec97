// The library for programs in other languages: every call on numbers and slices under its C name, `c13_` and the name of the function that it calls.
// `rt staticlib c13` writes libc13.a, which has them all and nothing else.
//
// A call answers a status and puts its words into `out`, its last slice. 0: none. 1: an answer. 2: a refusal; its words are the number of document 01 and
// what is carried, or 0. 3: the words do not fit, and nothing is changed. 4: an answer, and nothing comes behind it. A walk's state is the first words of
// `out`, all 0 for a new walk, and a refusal is put behind it. A call that changes other lent memory than `out` asks there for room for a refusal, behind
// the state if it steps a walk, before it does anything. A slice is two C parameters: its pointer and its length.
#![tactic(auto)]

ghost use Rattle.std.specs.Prelude.{◌≡◌, length};
ghost use Rattle.reading.specs.Reading.{open_checksums, open_inlinees, open_imports, open_exports, opaque};
ghost use Rattle.writer_decides.specs.Calls.{call_lines, call_block, call_checksum, call_inlinee, call_module, call_pair};
ghost use Rattle.kinds.specs.Kind.{crate_rule};
ghost use Rattle.answer_words.specs.Given.{Gives};
ghost use Rattle.export_parts.specs.Calls.{sub_given, names_given, name_given, symbols_given, lines_part_given, tables_part_given};
ghost use Rattle.export_files.specs.Calls.{file_given, files_given, files_left, info_given, checksums_given, file_in_given};
ghost use Rattle.export_tables.specs.Calls.{word_given, inlinee_given, module_given, ref_given, export_given, count_given, global_given};
ghost use Rattle.export_tables.specs.Calls.{list_given, places_left, listed_given, body_given, export_at_given, global_in_given};
ghost use Rattle.export_lines.specs.Calls.{lines_given, records_left};
ghost use Rattle.export_lines.specs.Calls.{order_given, slots_left, bodies_given, bodies_left, line_given, symbol_given};
ghost use Rattle.export_write.specs.Calls.{wrote_given, buffer_left, plain_given};

#[unsafe(no_mangle)]
pub extern "C" fn c13_next_sub(area: &[u8], out: &mut [u64]) -> u32
    ensures { Gives out.old (sub_given crate_rule area.now out.old) result out.new }
{
    export_parts::next_sub(area, out)
}

#[unsafe(no_mangle)]
pub extern "C" fn c13_next_file(area: &[u8], out: &mut [u64]) -> u32
    ensures { Gives out.old (file_given crate_rule area.now out.old) result out.new }
{
    export_files::next_file(area, out)
}

#[unsafe(no_mangle)]
pub extern "C" fn c13_files(area: &[u8], records: &mut [u32], out: &mut [u64]) -> u32
    ensures gives { Gives out.old
        (files_given crate_rule area.now (length records.old) out.old)
        result out.new }
    ensures records_after { records.new ≡ files_left crate_rule area.now records.old out.old }
{
    export_files::files(area, records, out)
}

#[unsafe(no_mangle)]
pub extern "C" fn c13_file_at(area: &[u8], index: u32, out: &mut [u64]) -> u32
    ensures { Gives out.old (info_given crate_rule area.now index) result out.new }
{
    export_files::file_at(area, index, out)
}

#[unsafe(no_mangle)]
pub extern "C" fn c13_checksums(area: &[u8], out: &mut [u64]) -> u32
    ensures { Gives out.old (checksums_given crate_rule area.now) result out.new }
{
    export_files::checksums(area, out)
}

#[unsafe(no_mangle)]
pub extern "C" fn c13_file_in(body: &[u8], index: u32, out: &mut [u64]) -> u32
    ensures { Gives out.old (file_in_given body.now index) result out.new }
{
    export_files::file_in(body, index, out)
}

#[unsafe(no_mangle)]
pub extern "C" fn c13_word(
    area: &[u8],
    words: usize,
    count: usize,
    i: usize,
    out: &mut [u64],
) -> u32
    ensures { Gives out.old (word_given area.now words count i) result out.new }
{
    export_tables::word(area, words, count, i, out)
}

#[unsafe(no_mangle)]
pub extern "C" fn c13_next_inlinee(area: &[u8], out: &mut [u64]) -> u32
    ensures { Gives out.old (inlinee_given crate_rule area.now out.old) result out.new }
{
    export_tables::next_inlinee(area, out)
}

#[unsafe(no_mangle)]
pub extern "C" fn c13_next_import(area: &[u8], out: &mut [u64]) -> u32
    ensures { Gives out.old (module_given crate_rule area.now out.old) result out.new }
{
    export_tables::next_import(area, out)
}

#[unsafe(no_mangle)]
pub extern "C" fn c13_resolve_import(area: &[u8], index: u32, out: &mut [u64]) -> u32
    ensures { Gives out.old (ref_given crate_rule area.now index) result out.new }
{
    export_tables::resolve_import(area, index, out)
}

#[unsafe(no_mangle)]
pub extern "C" fn c13_import_list(area: &[u8], places: &mut [u32], out: &mut [u64]) -> u32
    ensures gives { Gives out.old
        (list_given crate_rule area.now (length places.old) out.old)
        result out.new }
    ensures places_after { places.new ≡ places_left crate_rule area.now places.old out.old }
{
    export_tables::import_list(area, places, out)
}

#[unsafe(no_mangle)]
pub extern "C" fn c13_resolve_listed(
    area: &[u8],
    places: &[u32],
    index: u32,
    out: &mut [u64],
) -> u32
    ensures { Gives out.old (listed_given area.now places.now index) result out.new }
{
    export_tables::resolve_listed(area, places, index, out)
}

#[unsafe(no_mangle)]
pub extern "C" fn c13_next_export(area: &[u8], out: &mut [u64]) -> u32
    ensures { Gives out.old (export_given crate_rule area.now out.old) result out.new }
{
    export_tables::next_export(area, out)
}

#[unsafe(no_mangle)]
pub extern "C" fn c13_export_count(area: &[u8], out: &mut [u64]) -> u32
    ensures { Gives out.old (count_given crate_rule area.now) result out.new }
{
    export_tables::export_count(area, out)
}

#[unsafe(no_mangle)]
pub extern "C" fn c13_resolve_export(area: &[u8], local: u32, out: &mut [u64]) -> u32
    ensures { Gives out.old (global_given crate_rule area.now local) result out.new }
{
    export_tables::resolve_export(area, local, out)
}

#[unsafe(no_mangle)]
pub extern "C" fn c13_export_body(area: &[u8], out: &mut [u64]) -> u32
    ensures { Gives out.old (body_given crate_rule area.now) result out.new }
{
    export_tables::export_body(area, out)
}

#[unsafe(no_mangle)]
pub extern "C" fn c13_export_at(body: &[u8], i: usize, out: &mut [u64]) -> u32
    ensures { Gives out.old (export_at_given body.now i) result out.new }
{
    export_tables::export_at(body, i, out)
}

#[unsafe(no_mangle)]
pub extern "C" fn c13_export_in(body: &[u8], local: u32, out: &mut [u64]) -> u32
    ensures { Gives out.old (global_in_given body.now local) result out.new }
{
    export_tables::export_in(body, local, out)
}

#[unsafe(no_mangle)]
pub extern "C" fn c13_string_table(stream: &[u8], out: &mut [u64]) -> u32
    ensures { Gives out.old (names_given stream.now) result out.new }
{
    export_parts::string_table(stream, out)
}

#[unsafe(no_mangle)]
pub extern "C" fn c13_name(stream: &[u8], offset: u32, out: &mut [u64]) -> u32
    ensures { Gives out.old (name_given stream.now offset) result out.new }
{
    export_parts::name(stream, offset, out)
}

#[unsafe(no_mangle)]
pub extern "C" fn c13_module_symbols(
    stream: &[u8],
    symbols: u32,
    c11: u32,
    c13: u32,
    out: &mut [u64],
) -> u32
    ensures { Gives out.old (symbols_given stream.now symbols c11 c13) result out.new }
{
    export_parts::module_symbols(stream, symbols, c11, c13, out)
}

#[unsafe(no_mangle)]
pub extern "C" fn c13_lines_part(
    stream: &[u8],
    symbols: u32,
    c11: u32,
    c13: u32,
    out: &mut [u64],
) -> u32
    ensures { Gives out.old (lines_part_given stream.now symbols c11 c13) result out.new }
{
    export_parts::lines_part(stream, symbols, c11, c13, out)
}

#[unsafe(no_mangle)]
pub extern "C" fn c13_tables_part(
    stream: &[u8],
    symbols: u32,
    c11: u32,
    c13: u32,
    out: &mut [u64],
) -> u32
    ensures { Gives out.old (tables_part_given stream.now symbols c11 c13) result out.new }
{
    export_parts::tables_part(stream, symbols, c11, c13, out)
}

#[unsafe(no_mangle)]
pub extern "C" fn c13_order_list(area: &[u8], slots: &mut [u32], out: &mut [u64]) -> u32
    ensures gives { Gives out.old
        (order_given crate_rule area.now (length slots.old) out.old)
        result out.new }
    ensures slots_after { slots.new ≡ slots_left crate_rule area.now slots.old out.old }
{
    export_lines::order_list(area, slots, out)
}

#[unsafe(no_mangle)]
pub extern "C" fn c13_body_list(area: &[u8], bodies: &mut [u32], out: &mut [u64]) -> u32
    ensures gives { Gives out.old
        (bodies_given crate_rule area.now (length bodies.old) out.old)
        result out.new }
    ensures bodies_after { bodies.new ≡ bodies_left crate_rule area.now bodies.old out.old }
{
    export_lines::body_list(area, bodies, out)
}

#[unsafe(no_mangle)]
pub extern "C" fn c13_next_line(area: &[u8], slots: &[u32], bodies: &[u32], out: &mut [u64]) -> u32
    ensures { Gives out.old (line_given crate_rule area.now slots.now out.old) result out.new }
{
    export_lines::next_line(area, slots, bodies, out)
}

#[unsafe(no_mangle)]
pub extern "C" fn c13_lines(
    area: &[u8],
    slots: &[u32],
    bodies: &[u32],
    records: &mut [u32],
    out: &mut [u64],
) -> u32
    ensures gives { Gives out.old
        (lines_given crate_rule area.now slots.now (length records.old) out.old)
        result out.new }
    ensures records_after { records.new ≡ records_left crate_rule area.now slots.now records.old out.old }
{
    export_lines::lines(area, slots, bodies, records, out)
}

#[unsafe(no_mangle)]
pub extern "C" fn c13_lines_for_symbol(
    area: &[u8],
    slots: &[u32],
    bodies: &[u32],
    section: u16,
    offset: u32,
    end_lines: u32,
    out: &mut [u64],
) -> u32
    ensures { Gives out.old
        (symbol_given crate_rule area.now slots.now section offset end_lines)
        result out.new }
{
    export_lines::lines_for_symbol(area, slots, bodies, section, offset, end_lines, out)
}

#[unsafe(no_mangle)]
pub extern "C" fn c13_plain(area: &[u8], out: &mut [u64]) -> u32
    ensures { Gives out.old (plain_given area.now) result out.new }
{
    export_write::plain(area, out)
}

#[unsafe(no_mangle)]
pub extern "C" fn c13_open_lines(
    buf: &mut [u8],
    place: usize,
    offset: u32,
    section: u16,
    flags: u16,
    code: u32,
    out: &mut [u64],
) -> u32
    ensures gives { Gives out.old
        (wrote_given (call_lines offset section flags code) buf.old place out.old)
        result out.new }
    ensures buf_after { buf.new ≡ buffer_left (call_lines offset section flags code) buf.old place out.old }
{
    export_write::open_lines(buf, place, offset, section, flags, code, out)
}

#[unsafe(no_mangle)]
pub extern "C" fn c13_add_block(
    buf: &mut [u8],
    place: usize,
    file: u32,
    lines: &[u32],
    columns: &[u32],
    out: &mut [u64],
) -> u32
    ensures gives { Gives out.old
        (wrote_given (call_block file lines.now columns.now) buf.old place out.old)
        result out.new }
    ensures buf_after { buf.new ≡ buffer_left (call_block file lines.now columns.now) buf.old place out.old }
{
    export_write::add_block(buf, place, file, lines, columns, out)
}

#[unsafe(no_mangle)]
pub extern "C" fn c13_open_checksums(buf: &mut [u8], place: usize, out: &mut [u64]) -> u32
    ensures gives { Gives out.old (wrote_given open_checksums buf.old place out.old) result out.new }
    ensures buf_after { buf.new ≡ buffer_left open_checksums buf.old place out.old }
{
    export_write::open_checksums(buf, place, out)
}

#[unsafe(no_mangle)]
pub extern "C" fn c13_add_entry(
    buf: &mut [u8],
    place: usize,
    name: u32,
    kind: u8,
    bytes: &[u8],
    out: &mut [u64],
) -> u32
    ensures gives { Gives out.old
        (wrote_given (call_checksum name kind bytes.now) buf.old place out.old)
        result out.new }
    ensures buf_after { buf.new ≡ buffer_left (call_checksum name kind bytes.now) buf.old place out.old }
{
    export_write::add_entry(buf, place, name, kind, bytes, out)
}

#[unsafe(no_mangle)]
pub extern "C" fn c13_open_inlinees(
    buf: &mut [u8],
    place: usize,
    signature: u32,
    out: &mut [u64],
) -> u32
    ensures gives { Gives out.old (wrote_given (open_inlinees signature) buf.old place out.old) result out.new }
    ensures buf_after { buf.new ≡ buffer_left (open_inlinees signature) buf.old place out.old }
{
    export_write::open_inlinees(buf, place, signature, out)
}

#[unsafe(no_mangle)]
pub extern "C" fn c13_add_inlinee(
    buf: &mut [u8],
    place: usize,
    inlinee: u32,
    file: u32,
    line: u32,
    extra: &[u32],
    out: &mut [u64],
) -> u32
    ensures gives { Gives out.old
        (wrote_given (call_inlinee inlinee file line extra.now) buf.old place out.old)
        result out.new }
    ensures buf_after { buf.new ≡ buffer_left (call_inlinee inlinee file line extra.now) buf.old place out.old }
{
    export_write::add_inlinee(buf, place, inlinee, file, line, extra, out)
}

#[unsafe(no_mangle)]
pub extern "C" fn c13_open_imports(buf: &mut [u8], place: usize, out: &mut [u64]) -> u32
    ensures gives { Gives out.old (wrote_given open_imports buf.old place out.old) result out.new }
    ensures buf_after { buf.new ≡ buffer_left open_imports buf.old place out.old }
{
    export_write::open_imports(buf, place, out)
}

#[unsafe(no_mangle)]
pub extern "C" fn c13_add_module(
    buf: &mut [u8],
    place: usize,
    name: u32,
    words: &[u32],
    out: &mut [u64],
) -> u32
    ensures gives { Gives out.old
        (wrote_given (call_module name words.now) buf.old place out.old)
        result out.new }
    ensures buf_after { buf.new ≡ buffer_left (call_module name words.now) buf.old place out.old }
{
    export_write::add_module(buf, place, name, words, out)
}

#[unsafe(no_mangle)]
pub extern "C" fn c13_open_exports(buf: &mut [u8], place: usize, out: &mut [u64]) -> u32
    ensures gives { Gives out.old (wrote_given open_exports buf.old place out.old) result out.new }
    ensures buf_after { buf.new ≡ buffer_left open_exports buf.old place out.old }
{
    export_write::open_exports(buf, place, out)
}

#[unsafe(no_mangle)]
pub extern "C" fn c13_add_pair(
    buf: &mut [u8],
    place: usize,
    local: u32,
    global: u32,
    out: &mut [u64],
) -> u32
    ensures gives { Gives out.old (wrote_given (call_pair local global) buf.old place out.old) result out.new }
    ensures buf_after { buf.new ≡ buffer_left (call_pair local global) buf.old place out.old }
{
    export_write::add_pair(buf, place, local, global, out)
}

#[unsafe(no_mangle)]
pub extern "C" fn c13_add_opaque(
    buf: &mut [u8],
    place: usize,
    kind: u32,
    body: &[u8],
    out: &mut [u64],
) -> u32
    ensures gives { Gives out.old (wrote_given (opaque kind body.now) buf.old place out.old) result out.new }
    ensures buf_after { buf.new ≡ buffer_left (opaque kind body.now) buf.old place out.old }
{
    export_write::add_opaque(buf, place, kind, body, out)
}
