// Which command the first argument names, and whether it takes the given number of operands.
#![tactic(auto)]

ghost use Rattle.std.specs.Prelude.{◌≡◌};
ghost use Rattle.lxtr_command_spec.specs.Commands.{taking, command_of};
ghost use Rattle.lxtr_arguments.specs.Rows.{answer_in};

use lxtr_command_spec::Command;

// A row of the table of commands: a name, its command, and from how many to how many operands it takes.
type Row = (&'static [u8], Command, usize, usize);

const ROWS: [Row; 12] = [
    (b"check", Command::Check, 1, 1),
    (b"exact", Command::Exact, 2, 2),
    (b"prefixes", Command::Prefixes, 2, 2),
    (b"longest", Command::Longest, 2, 2),
    (b"probe", Command::Probe, 2, 2),
    (b"why", Command::Why, 2, 2),
    (b"complete", Command::Complete, 1, 2),
    (b"build", Command::Build, 2, 2),
    (b"keys", Command::Keys, 2, 2),
    (b"draw", Command::Draw, 1, 1),
    (b"type", Command::TypeText, 3, 3),
    (b"help", Command::Help, 0, 0),
];

// The command, if `count` is one of the numbers of operands that it takes; otherwise WrongOperands.
#[tactic(auto, unfolding(lxtr_command_spec::specs::Commands::taking))]
fn taking(command: Command, fewest: usize, most: usize, count: usize) -> Command
    ensures { result ≡ taking command fewest most count }
{
    if (fewest..=most).contains(&count) {
        command
    } else {
        Command::WrongOperands
    }
}

// The answer of the first row with that name.
fn answer_in(table: &[Row], name: &[u8], count: usize) -> Command
    ensures { result ≡ answer_in table.now name.now count }
{
    for (text, command, fewest, most) in table {
        if name == *text {
            return taking(*command, *fewest, *most, count);
        }
    }
    Command::Unknown
}

// The command of that name, followed by `count` operands.
pub fn command(name: &[u8], count: usize) -> Command
    ensures { result ≡ command_of name.now count }
{
    answer_in(&ROWS, name, count)
}
