//! The command whose words are read.
ghost use Rattle.std.specs.Prelude.{◌≡◌, false, IfOk};
ghost use Rattle.clap.specs.Words.{app_of, rule_of};
ghost use Rattle.flowpaths_cli.specs.Command.{option as option_rule, command as command_app};

use clap::{Arg, ArgAction, Command};
use std::alloc::{AllocError, Global};

/// An option behind two dashes.
fn option<'a>(alloc: Global, name: &'a str) -> Arg<'a>
    ensures rule { rule_of result ≡ option_rule name.entry.now }
    ensures local { result.global ≡ false }
{
    Arg::new(alloc, name).long(name)
}

/// The command: no word stands for the program, and no option asks for help.
pub fn command<'a>(alloc: Global) -> Result<Command<'a>, AllocError>
    ensures { IfOk result (λ c. app_of c ≡ command_app) }
{
    Command::new(alloc, "flowpaths")
        .no_binary_name(true)
        .disable_help_flag(true)
        .arg(option(alloc, "model"))?
        .arg(option(alloc, "paths"))?
        .arg(option(alloc, "nodes"))?
        .arg(option(alloc, "safe").action(ArgAction::SetTrue))?
        .arg(option(alloc, "demo"))?
        .arg(Arg::new(alloc, "file"))
}
