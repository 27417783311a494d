// The exported functions: each is that of the crate `cabi`, with its promises, under its name for C.
// C lends slices one by one, so the parameters stand one by one.
#![tactic(auto)]

ghost use Rattle.std.specs.Prelude.{◌≡◌, length};
ghost use Rattle.table.specs.Limits.{limits};
ghost use Rattle.table.specs.Slices.{slices};
ghost use Rattle.table.specs.Load.{given_number, record_handed, loaded_by, given, left_in};
ghost use Rattle.convert.specs.declared.pieces.Way.TheVariants.{ToUnicode, FromUnicode};
ghost use Rattle.audit.specs.Audit.{page_handed, space_after, ending_number};
ghost use Rattle.cabi.specs.Exported.{record_numbers, loaded_numbers, audited_numbers, check_number, settings_in};
ghost use Rattle.cabi.specs.Exported.{if_short, with_numbers, answered, to_exported, from_exported};
ghost use Rattle.cabi.specs.Exported.{audit_exported, piece_answered, piece_exported, close_exported};

// Loads a table's text into lent memory.
#[unsafe(no_mangle)]
pub extern "C" fn oboepond_load(
    text: &[u8],
    rec: &mut [u32],
    states: &mut [u16],
    codes: &mut [u32],
    infos: &mut [u32],
    order: &mut [u32],
    res: &mut [u64],
) -> u32
    ensures { let old =
        slices states.old codes.old infos.old order.old in
        let g = given limits text.now old in
        let numbers = rec.old in
        let before = res.old in
        (result ≡ if_short 1 numbers before 70 (given_number g))
        × (rec.new
        ≡ if_short 1 numbers before numbers (with_numbers (record_numbers (record_handed (loaded_by g))) numbers))
        × (slices states.new codes.new infos.new order.new
        ≡ if_short 1 numbers before old (left_in limits g old))
        × (res.new ≡ if_short 1 numbers before before (with_numbers (loaded_numbers (loaded_by g)) before)) }
{
    cabi::oboepond_load(text, rec, states, codes, infos, order, res)
}

// The test behind number 60.
#[unsafe(no_mangle)]
pub extern "C" fn oboepond_check(
    rec: &[u32],
    states: &[u16],
    codes: &[u32],
    infos: &[u32],
    order: &[u32],
) -> u32
    ensures { let m =
        slices states.now codes.now infos.now order.now in
        result ≡ check_number rec.now m }
{
    cabi::oboepond_check(rec, states, codes, infos, order)
}

// From a table's bytes to Unicode.
#[unsafe(no_mangle)]
pub extern "C" fn oboepond_to_unicode(
    rec: &[u32],
    states: &[u16],
    codes: &[u32],
    infos: &[u32],
    order: &[u32],
    input: &[u8],
    output: &mut [u8],
    scheme: u32,
    substitute: u32,
    skip: u32,
    res: &mut [u64],
) -> u32
    ensures { let m =
        slices states.now codes.now infos.now order.now in
        let old = output.old in
        let run = to_exported rec.now m substitute skip input.now (length old) in
        let a = answered rec.now scheme run old res.old in
        (result ≡ a.number) × (output.new ≡ a.output) × (res.new ≡ a.result) }
{
    cabi::oboepond_to_unicode(
        rec, states, codes, infos, order, input, output, scheme, substitute, skip, res,
    )
}

// From Unicode to a table's bytes.
#[unsafe(no_mangle)]
pub extern "C" fn oboepond_from_unicode(
    rec: &[u32],
    states: &[u16],
    codes: &[u32],
    infos: &[u32],
    order: &[u32],
    input: &[u8],
    output: &mut [u8],
    scheme: u32,
    fallback: u32,
    substitute: u32,
    skip: u32,
    res: &mut [u64],
) -> u32
    ensures { let m =
        slices states.now codes.now infos.now order.now in
        let old = output.old in
        let run = from_exported rec.now m fallback substitute skip input.now (length old) in
        let a = answered rec.now scheme run old res.old in
        (result ≡ a.number) × (output.new ≡ a.output) × (res.new ≡ a.result) }
{
    cabi::oboepond_from_unicode(
        rec, states, codes, infos, order, input, output, scheme, fallback, substitute, skip, res,
    )
}

// From a table's bytes to UTF-8.
#[unsafe(no_mangle)]
pub extern "C" fn oboepond_to_utf8(
    rec: &[u32],
    states: &[u16],
    codes: &[u32],
    infos: &[u32],
    order: &[u32],
    input: &[u8],
    output: &mut [u8],
    substitute: u32,
    skip: u32,
    res: &mut [u64],
) -> u32
    ensures { let m =
        slices states.now codes.now infos.now order.now in
        let old = output.old in
        let run = to_exported rec.now m substitute skip input.now (length old) in
        let a = answered rec.now 0 run old res.old in
        (result ≡ a.number) × (output.new ≡ a.output) × (res.new ≡ a.result) }
{
    cabi::oboepond_to_utf8(
        rec, states, codes, infos, order, input, output, substitute, skip, res,
    )
}

// From UTF-8 to a table's bytes.
#[unsafe(no_mangle)]
pub extern "C" fn oboepond_from_utf8(
    rec: &[u32],
    states: &[u16],
    codes: &[u32],
    infos: &[u32],
    order: &[u32],
    input: &[u8],
    output: &mut [u8],
    fallback: u32,
    substitute: u32,
    skip: u32,
    res: &mut [u64],
) -> u32
    ensures { let m =
        slices states.now codes.now infos.now order.now in
        let old = output.old in
        let run = from_exported rec.now m fallback substitute skip input.now (length old) in
        let a = answered rec.now 0 run old res.old in
        (result ≡ a.number) × (output.new ≡ a.output) × (res.new ≡ a.result) }
{
    cabi::oboepond_from_utf8(
        rec, states, codes, infos, order, input, output, fallback, substitute, skip, res,
    )
}

// One call of the audit.
#[unsafe(no_mangle)]
pub extern "C" fn oboepond_audit(
    rec: &[u32],
    states: &[u16],
    codes: &[u32],
    infos: &[u32],
    order: &[u32],
    fallback: u32,
    bits: u32,
    len: u32,
    allowance: u64,
    entries: &mut [u64],
    res: &mut [u64],
) -> u32
    ensures { let m =
        slices states.now codes.now infos.now order.now in
        let numbers = rec.now in
        let old = entries.old in
        let before = res.old in
        let a = audit_exported numbers m fallback bits len allowance (length old) in
        (result ≡ if_short 5 numbers before 70 (ending_number a.ending))
        × (entries.new ≡ if_short 5 numbers before old (space_after a old))
        × (res.new
        ≡ if_short 5 numbers before before (with_numbers (audited_numbers (page_handed a.page)) before)) }
{
    cabi::oboepond_audit(
        rec, states, codes, infos, order, fallback, bits, len, allowance, entries, res,
    )
}

// One call on a piece, from a table's bytes to Unicode.
#[unsafe(no_mangle)]
pub extern "C" fn oboepond_to_unicode_piece(
    rec: &[u32],
    states: &[u16],
    codes: &[u32],
    infos: &[u32],
    order: &[u32],
    kept: &mut [u32],
    input: &[u8],
    output: &mut [u8],
    scheme: u32,
    substitute: u32,
    skip: u32,
    res: &mut [u64],
) -> u32
    ensures { let m =
        slices states.now codes.now infos.now order.now in
        let old = output.old in
        let before = kept.old in
        let settings = settings_in 0 substitute skip in
        let run = piece_exported ToUnicode rec.now m before settings input.now (length old) in
        let a = piece_answered rec.now scheme run before old res.old in
        (result ≡ a.number) × (kept.new ≡ a.kept) × (output.new ≡ a.output)
        × (res.new ≡ a.result) }
{
    cabi::pieces::oboepond_to_unicode_piece(
        rec, states, codes, infos, order, kept, input, output, scheme, substitute, skip, res,
    )
}

// One call on a piece, from Unicode to a table's bytes.
#[unsafe(no_mangle)]
pub extern "C" fn oboepond_from_unicode_piece(
    rec: &[u32],
    states: &[u16],
    codes: &[u32],
    infos: &[u32],
    order: &[u32],
    kept: &mut [u32],
    input: &[u8],
    output: &mut [u8],
    scheme: u32,
    fallback: u32,
    substitute: u32,
    skip: u32,
    res: &mut [u64],
) -> u32
    ensures { let m =
        slices states.now codes.now infos.now order.now in
        let old = output.old in
        let before = kept.old in
        let settings = settings_in fallback substitute skip in
        let run = piece_exported FromUnicode rec.now m before settings input.now (length old) in
        let a = piece_answered rec.now scheme run before old res.old in
        (result ≡ a.number) × (kept.new ≡ a.kept) × (output.new ≡ a.output)
        × (res.new ≡ a.result) }
{
    cabi::pieces::oboepond_from_unicode_piece(
        rec, states, codes, infos, order, kept, input, output, scheme, fallback, substitute, skip,
        res,
    )
}

// The closing call, from a table's bytes to Unicode.
#[unsafe(no_mangle)]
pub extern "C" fn oboepond_to_unicode_close(
    rec: &[u32],
    states: &[u16],
    codes: &[u32],
    infos: &[u32],
    order: &[u32],
    kept: &mut [u32],
    output: &mut [u8],
    scheme: u32,
    substitute: u32,
    skip: u32,
    res: &mut [u64],
) -> u32
    ensures { let m =
        slices states.now codes.now infos.now order.now in
        let old = output.old in
        let before = kept.old in
        let settings = settings_in 0 substitute skip in
        let run = close_exported ToUnicode rec.now m before settings (length old) in
        let a = piece_answered rec.now scheme run before old res.old in
        (result ≡ a.number) × (kept.new ≡ a.kept) × (output.new ≡ a.output)
        × (res.new ≡ a.result) }
{
    cabi::pieces::oboepond_to_unicode_close(
        rec, states, codes, infos, order, kept, output, scheme, substitute, skip, res,
    )
}

// The closing call, from Unicode to a table's bytes.
#[unsafe(no_mangle)]
pub extern "C" fn oboepond_from_unicode_close(
    rec: &[u32],
    states: &[u16],
    codes: &[u32],
    infos: &[u32],
    order: &[u32],
    kept: &mut [u32],
    output: &mut [u8],
    scheme: u32,
    fallback: u32,
    substitute: u32,
    skip: u32,
    res: &mut [u64],
) -> u32
    ensures { let m =
        slices states.now codes.now infos.now order.now in
        let old = output.old in
        let before = kept.old in
        let settings = settings_in fallback substitute skip in
        let run = close_exported FromUnicode rec.now m before settings (length old) in
        let a = piece_answered rec.now scheme run before old res.old in
        (result ≡ a.number) × (kept.new ≡ a.kept) × (output.new ≡ a.output)
        × (res.new ≡ a.result) }
{
    cabi::pieces::oboepond_from_unicode_close(
        rec, states, codes, infos, order, kept, output, scheme, fallback, substitute, skip, res,
    )
}
