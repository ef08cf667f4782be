// A search's own numbers and codes: whether the settings are in range, and whether codes are good.
#![tactic(auto)]

ghost use Rattle.settings.specs.Settings.{CodesTold, SettingsTold};

use operators::in_group;

// Whether each code is in its group, and none is repeated.
pub fn codes_good(codes: &[u8], unary: bool) -> bool
    ensures { CodesTold unary codes.now result }
{
    for (i, &code) in codes.iter().enumerate() {
        if !in_group(code, unary) {
            return false;
        }
        if codes[..i].contains(&code) {
            return false;
        }
    }
    true
}

// Whether the size bound, the room for formulas and the mark for constants are in range.
pub fn settings_good(bound: usize, room: usize, constants: u8) -> bool
    ensures { SettingsTold bound room constants result }
{
    (1..=rules::BOUND).contains(&bound) && (1..=rules::ROOM).contains(&room) && constants <= 1
}
