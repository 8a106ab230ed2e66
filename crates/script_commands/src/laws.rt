//! What holds of every generated script by the definitions alone.
ghost use Rattle.std.specs.Prelude.{◌≡◌, ℕ, Ok, map, true};
ghost use Rattle.restyle.specs.Worlds.{new_world};
ghost use Rattle.script_gen.specs.Lines.{script_lines};
ghost use Rattle.script_text.specs.Reading.{command_of};
ghost use Rattle.script_commands.specs.Accepted.{are_accepted};
ghost use Rattle.script_commands.specs.Generated.{script_commands};

/// Each line of a generated script is a command, and none is refused as it is read.
pub fn generated_lines_are_commands()
    ensures { (seed : ℕ) → map command_of (script_lines seed) ≡ map Ok (script_commands seed) }
{}

/// A new world accepts every command of a generated script.
pub fn generated_commands_are_accepted()
    ensures { (seed : ℕ) → are_accepted new_world (script_commands seed) ≡ true }
{}
