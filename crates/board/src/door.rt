// Words at the door: what the units are given in the place of what comes.
ghost use Rattle.std.specs.Prelude.{◌≡◌};
ghost use Rattle.board.specs.Door.{solo_code, solo_data, command_of, data_of};

// The chips code that a single chip is given: 0 for the board's own and 3 for any other.
fn solo_code(units: u16, code: u16) -> u16
    ensures { result ≡ solo_code units code }
{
    if code == units / 2 { 0 } else { 3 }
}

// INIT's data with that chips code.
fn solo_data(units: u16, data: u16) -> u16
    ensures { result ≡ solo_data units «data» }
{
    let code = solo_code(units, data / 64 % 4);
    data / 256 * 256 + code * 64 + data % 64
}

// The command that the units are given: on several, A hex for 0 and 9.
#[tactic(auto, using(std::proofs::lemmas::Bool::Decides::nat_tests), unfolding(crate::specs::Door::command_of))]
pub(crate) fn command_of(units: u16, command: u8) -> u8
    ensures { result ≡ command_of units command }
{
    match command {
        0 | 9 if 1 < units => 10,
        _ => command,
    }
}

// The data that they are given: INIT's with a single chip's code.
#[tactic(auto, using(std::proofs::lemmas::Bool::Decides::nat_tests), unfolding(crate::specs::Door::data_of))]
pub(crate) fn data_of(units: u16, command: u8, data: u16) -> u16
    ensures { result ≡ data_of units command «data» }
{
    match command {
        15 => solo_data(units, data),
        _ => data,
    }
}
