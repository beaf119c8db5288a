// What the command line asks for.
ghost use Rattle.std.specs.Prelude.{Decides, IfErr, MatchResult, map, string_bytes};
ghost use Rattle.std.specs.Vec.Iter.{into_iter_items};
ghost use Rattle.command.specs.Requests.{AsksHelp, Asks, FirstOther};
ghost use Rattle.command.specs.Troubles.{OfArguments};

use crate::trouble::Trouble;
use std::env;
use std::env::Args;

/// What a program is to do.
#[derive(Clone, Copy, PartialEq, Eq, Debug)]
pub enum Request {
    Run,
    Help,
}

// Whether the argument asks for help.
fn is_help(arg: &str) -> bool
    ensures { Decides result (AsksHelp arg.now) }
{
    arg == "--help" || arg == "-h"
}

/// What the arguments ask for, of which there may be none but those that ask for help; or the first other one.
pub fn request_of(args: Args) -> Result<Request, String>
    ensures { MatchResult result (Asks (map string_bytes (into_iter_items args))) (λ arg. FirstOther (map string_bytes (into_iter_items args)) (string_bytes arg)) }
{
    // One loop and no search, since it tells as well whether there is any argument.
    let mut request = Request::Run;
    for arg in args {
        if !is_help(arg.as_str()) {
            return Err(arg);
        }
        request = Request::Help;
    }
    Ok(request)
}

/// What the command line asks for.
pub fn asked_for<W>(rt: &HostRuntime) -> Result<Request, Trouble<W>>
    ensures { IfErr result OfArguments }
{
    let mut args = env::args(rt)?;
    // The first is the program's own name.
    let _ = args.next();
    request_of(args).map_err(|arg| Trouble::Argument(arg))
}
