ghost use Rattle.std.specs.Prelude.{◌≡◌, IfOk, Ok, Some, map, option_map, string_bytes};
ghost use Rattle.command_words.specs.Commands.{HasNoMode};
ghost use Rattle.command_words.specs.Shown.{shown_form};
ghost use Rattle.dispatch_top.specs.Asking.{AsksFor};
ghost use Rattle.dispatch_top.specs.Forms.{is_of_run, kept_where, run_asks};

use command_words::{Form, form};
use ride_base::NoMemory;
use std::alloc::Global;
use stop_schedule::Params;

/// A stream that is to be answered, over a graph and a fleet, by their names.
#[derive(Clone, Copy)]
pub(crate) struct RunNames<'a> {
    pub(crate) graph: &'a str,
    pub(crate) fleet: &'a str,
    pub(crate) stream: &'a str,
    pub(crate) params: Params,
}

/// What the words of a command line ask for.
#[derive(Clone, Copy)]
pub(crate) enum Task<'a> {
    /// A stream is to be answered.
    Run(RunNames<'a>),
    /// The least walk between two nodes of a graph is asked for.
    Walk { graph: &'a str, from: u32, to: u32 },
    /// The sums over the rides of a made city are asked for.
    Gen { number: u64 },
    /// A form that isn't answered yet.
    Later,
    /// The words are none of the forms that `run` takes.
    Unknown,
}

/// What the words ask for.
pub(crate) fn read_words<'a>(alloc: Global, words: &'a [String]) -> Result<Task<'a>, NoMemory>
    ensures asks { IfOk result
        (λ task. AsksFor task (run_asks (map string_bytes words.entry.now))) }
    ensures modes { HasNoMode (map string_bytes words.entry.now) → result ≡ Ok Task.Unknown }
{
    match form(alloc, words) {
        Ok(form) => Ok(task_of(&form)),
        Err(error) => Err(error),
    }
}

/// What a command line asks for.
fn task_of<'a>(form: &Option<Form<'a>>) -> Task<'a>
    ensures { AsksFor result (kept_where is_of_run (option_map shown_form form.now)) }
{
    match form {
        Some(form) => task_of_form(form),
        None => Task::Unknown,
    }
}

/// What a form asks for.
fn task_of_form<'a>(form: &Form<'a>) -> Task<'a>
    ensures { AsksFor result (kept_where is_of_run (Some (shown_form form.now))) }
{
    match form {
        Form::Run {
            graph,
            fleet,
            stream,
            params,
            window: None,
            proof: false,
        } => Task::Run(RunNames {
            graph: *graph,
            fleet: *fleet,
            stream: *stream,
            params: *params,
        }),
        Form::Walk { graph, from, to } => Task::Walk {
            graph: *graph,
            from: *from,
            to: *to,
        },
        Form::Gen { number } => Task::Gen { number: *number },
        Form::Live { .. } => Task::Unknown,
        Form::Run { .. } | Form::Audit { .. } => Task::Later,
    }
}
