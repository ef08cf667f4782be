// What a search refuses: the tests of session data, with its own numbers, rooms and codes among them.
#![tactic(auto)]

ghost use Rattle.std.specs.Prelude.{◌≤◌};
ghost use Rattle.rules.specs.Limits.{most_sessions, most_room};
ghost use Rattle.rules.specs.Refusals.{Decided, number_of};
ghost use Rattle.table.specs.Slices.{cols};
ghost use Rattle.checks.specs.Refusals.{search_rows};
ghost use Rattle.walk.specs.Input.{input_of};
ghost use Rattle.checks.specs.Inner.{RoomTold};

use rules::refusal::Refusal;

// Whether there is room for C nodes and C x r words.
fn has_room(
    r: usize,
    room: usize,
    codes: &[u8],
    lefts: &[u16],
    rights: &[u16],
    sizes: &[u8],
    matrices: &[u64],
) -> bool
    requires { (r ≤ most_sessions) × (room ≤ most_room) }
    ensures { RoomTold r room
        (cols codes.now lefts.now rights.now sizes.now matrices.now) result }
{
    room <= codes.len()
        && room <= lefts.len()
        && room <= rights.len()
        && room <= sizes.len()
        && room * r <= matrices.len()
}

// The first of the rows in document 01's order that is given: 1, 2, 3, the data's 3, 4, 5 and 6, then 7. The data's tests begin with 1, which comes before the
// 2 of the search: so 1 is tested by itself first.
pub fn check(
    r: usize,
    m: usize,
    bound: usize,
    room: usize,
    constants: u8,
    marks: &[u8],
    lengths: &[u8],
    words: &[u64],
    unary: &[u8],
    binary: &[u8],
    codes: &[u8],
    lefts: &[u16],
    rights: &[u16],
    sizes: &[u8],
    matrices: &[u64],
) -> Result<(), Refusal>
    ensures { Decided (search_rows
        (input_of r m bound room constants marks.now lengths.now words.now unary.now binary.now)
        (cols codes.now lefts.now rights.now sizes.now matrices.now)) (number_of result) }
{
    let data = session::data::test(r, m, marks, lengths, words);
    if data == Err(Refusal::Numbers) {
        return data;
    }
    if !settings::settings_good(bound, room, constants) {
        return Err(Refusal::Settings);
    }
    if !has_room(r, room, codes, lefts, rights, sizes, matrices) {
        return Err(Refusal::Room);
    }
    data?;
    if !settings::codes_good(unary, true) {
        return Err(Refusal::Code);
    }
    if !settings::codes_good(binary, false) {
        return Err(Refusal::Code);
    }
    Ok(())
}
