// The C boundary: operators, search (whole and in slices), check, print, the readers of formulas and files, the comparison and the report, on numbers and slices of numbers.
// Every function returns 0 where it answered, else a refusal's number, and answers in the slice `out`. Each is one call of the function with the same contract
// in a crate of its own (out_operators, out_search, ..).
#![tactic(auto)]

ghost use Rattle.std.specs.Prelude.{◌≡◌};
ghost use Rattle.file.specs.Reading.{lent};
ghost use Rattle.formula.specs.Kinds.{node, nodes};
ghost use Rattle.reader.specs.Parsing.{columns};
ghost use Rattle.session.specs.Recording.{recording};
ghost use Rattle.slices.specs.Slices.{fresh_state};
ghost use Rattle.table.specs.Slices.{cols};
ghost use Rattle.walk.specs.Input.{input_of};
ghost use Rattle.out_operators.specs.Operators.{UnaryDone, BinaryDone};
ghost use Rattle.out_search.specs.Search.{SearchDone};
ghost use Rattle.out_check.specs.Check.{CheckDone};
ghost use Rattle.out_print.specs.Print.{PrintDone};
ghost use Rattle.out_parse.specs.Parse.{ParseDone};
ghost use Rattle.out_read.specs.Read.{done, read_done};
ghost use Rattle.out_compare.specs.Compare.{CompareDone};
ghost use Rattle.out_report.specs.Report.{ReportDone};
ghost use Rattle.state_words.specs.Written.{StateDone};
ghost use Rattle.out_resume.specs.Resume.{ResumeDone};

// The unary operator of a code on a sequence.
#[unsafe(no_mangle)]
pub extern "C" fn scarfpylon_unary(code: u8, length: u64, word: u64, out: &mut [u64]) -> u64
    ensures { UnaryDone code length word out.old result out.new }
{
    out_operators::unary(code, length, word, out)
}

// The binary operator of a code on two sequences of one length.
#[unsafe(no_mangle)]
pub extern "C" fn scarfpylon_binary(
    code: u8,
    llen: u64,
    lword: u64,
    rlen: u64,
    rword: u64,
    out: &mut [u64],
) -> u64
    ensures { BinaryDone code llen lword rlen rword out.old result out.new }
{
    out_operators::binary(code, llen, lword, rlen, rword, out)
}

// FOUND, NONE or FULL, with the kept formulas in the lent slices.
#[unsafe(no_mangle)]
pub extern "C" fn scarfpylon_search(
    r: usize,
    m: usize,
    bound: usize,
    room: usize,
    constants: u8,
    marks: &[u8],
    lengths: &[u8],
    words: &[u64],
    unary: &[u8],
    binary: &[u8],
    codes: &mut [u8],
    lefts: &mut [u16],
    rights: &mut [u16],
    sizes: &mut [u8],
    matrices: &mut [u64],
    out: &mut [u64],
) -> u64
    ensures { SearchDone
        (input_of r m bound room constants marks.now lengths.now words.now unary.now binary.now)
        (cols codes.old lefts.old rights.old sizes.old matrices.old)
        out.old
        result
        (cols codes.new lefts.new rights.new sizes.new matrices.new)
        out.new }
{
    out_search::search(
        r, m, bound, room, constants, marks, lengths, words, unary, binary, codes, lefts, rights,
        sizes, matrices, out,
    )
}

// A state of which nothing is tried, in the first 16 words.
#[unsafe(no_mangle)]
pub extern "C" fn scarfpylon_fresh(state: &mut [u64]) -> u64
    ensures { StateDone fresh_state state.old result state.new }
{
    state_words::fresh(state)
}

// The search from a state on, for at most `budget` candidates: MORE, or the end, with the state after it in the words.
#[unsafe(no_mangle)]
pub extern "C" fn scarfpylon_resume(
    r: usize,
    m: usize,
    bound: usize,
    room: usize,
    constants: u8,
    marks: &[u8],
    lengths: &[u8],
    words: &[u64],
    unary: &[u8],
    binary: &[u8],
    codes: &mut [u8],
    lefts: &mut [u16],
    rights: &mut [u16],
    sizes: &mut [u8],
    matrices: &mut [u64],
    budget: u64,
    state: &mut [u64],
    out: &mut [u64],
) -> u64
    ensures { ResumeDone
        (input_of r m bound room constants marks.now lengths.now words.now unary.now binary.now)
        (cols codes.old lefts.old rights.old sizes.old matrices.old)
        budget
        state.old
        out.old
        result
        (cols codes.new lefts.new rights.new sizes.new matrices.new)
        state.new
        out.new }
{
    out_resume::resume(
        r, m, bound, room, constants, marks, lengths, words, unary, binary, codes, lefts, rights,
        sizes, matrices, budget, state, out,
    )
}

// Whether the root's formula separates the marked sessions, and if not, the first session that disagrees.
#[unsafe(no_mangle)]
pub extern "C" fn scarfpylon_check(
    r: usize,
    m: usize,
    marks: &[u8],
    lengths: &[u8],
    words: &[u64],
    codes: &[u8],
    lefts: &[u16],
    rights: &[u16],
    sizes: &[u8],
    code: u8,
    left: u16,
    right: u16,
    size: u8,
    out: &mut [u64],
) -> u64
    ensures { CheckDone
        (recording r m marks.now lengths.now words.now)
        (nodes codes.now lefts.now rights.now sizes.now)
        (node code left right size)
        out.old
        result
        out.new }
{
    out_check::check(
        r, m, marks, lengths, words, codes, lefts, rights, sizes, code, left, right, size, out,
    )
}

// The text of the root's formula, at the start of the lent room.
#[unsafe(no_mangle)]
pub extern "C" fn scarfpylon_print(
    names: &[u8],
    codes: &[u8],
    lefts: &[u16],
    rights: &[u16],
    sizes: &[u8],
    code: u8,
    left: u16,
    right: u16,
    size: u8,
    text: &mut [u8],
    out: &mut [u64],
) -> u64
    ensures { PrintDone
        names.now
        (nodes codes.now lefts.now rights.now sizes.now)
        (node code left right size)
        text.old
        out.old
        result
        text.new
        out.new }
{
    out_print::print(
        names, codes, lefts, rights, sizes, code, left, right, size, text, out,
    )
}

// The nodes of a formula that is typed, in the lent slices, the root last.
#[unsafe(no_mangle)]
pub extern "C" fn scarfpylon_parse(
    names: &[u8],
    text: &[u8],
    codes: &mut [u8],
    lefts: &mut [u16],
    rights: &mut [u16],
    sizes: &mut [u8],
    out: &mut [u64],
) -> u64
    ensures { ParseDone
        names.now
        text.now
        (columns codes.old lefts.old rights.old sizes.old)
        out.old
        result
        (columns codes.new lefts.new rights.new sizes.new)
        out.new }
{
    out_parse::parse(names, text, codes, lefts, rights, sizes, out)
}

// A session file's parts, in the lent slices.
#[unsafe(no_mangle)]
pub extern "C" fn scarfpylon_read(
    file: &[u8],
    marks: &mut [u8],
    lengths: &mut [u8],
    words: &mut [u64],
    unary: &mut [u8],
    binary: &mut [u8],
    out: &mut [u64],
) -> u64
    ensures { done result
        (lent marks.new lengths.new words.new unary.new binary.new)
        out.new
        ≡ read_done file.now
        (lent marks.old lengths.old words.old unary.old binary.old)
        out.old }
{
    out_read::read(file, marks, lengths, words, unary, binary, out)
}

// A matrix, the first r of the words, against the one at a place of the matrices: equal, or the first session that differs.
#[unsafe(no_mangle)]
pub extern "C" fn scarfpylon_compare(
    r: usize,
    place: usize,
    matrices: &[u64],
    words: &[u64],
    out: &mut [u64],
) -> u64
    ensures { CompareDone r place matrices.now words.now out.old result out.new }
{
    out_compare::compare(r, place, matrices, words, out)
}

// Per session and node under the root: the first snapshot where it holds, the first where it doesn't, and at how many it holds.
#[unsafe(no_mangle)]
pub extern "C" fn scarfpylon_report(
    r: usize,
    m: usize,
    marks: &[u8],
    lengths: &[u8],
    words: &[u64],
    codes: &[u8],
    lefts: &[u16],
    rights: &[u16],
    sizes: &[u8],
    code: u8,
    left: u16,
    right: u16,
    size: u8,
    text: &mut [u8],
    out: &mut [u64],
) -> u64
    ensures { ReportDone
        (recording r m marks.now lengths.now words.now)
        (nodes codes.now lefts.now rights.now sizes.now)
        (node code left right size)
        text.old
        out.old
        result
        text.new
        out.new }
{
    out_report::report(
        r, m, marks, lengths, words, codes, lefts, rights, sizes, code, left, right, size, text,
        out,
    )
}
