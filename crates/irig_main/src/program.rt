//! A run of the program.

ghost use Rattle.std.specs.Prelude.{◌≡◌, ◌↔◌, ◌≤◌, Err, IfOk, Ok, Result, false, length, true};
ghost use Rattle.cli_words.specs.Requests.{IsRequest};
ghost use Rattle.cli_words.specs.declared.request.Request.{Request};
ghost use Rattle.irig_device.specs.Watched.{device_of, has_failed};
ghost use Rattle.irig_main.specs.Serving.{Answer, Answers, Drove, PlaysScene, plain_log};
ghost use Rattle.irig_main.specs.Status.{IsStatus, status_of_answer};

use crate::explain::tell_more;
use crate::fault::{Fault, report};
use crate::request::{serve, write};
use cli_words::{NoRequest, Request, parse};
use irig_device::Watched;
use std::io::{BufRead, Write};
use std::rt::Files;

/// Does what the words ask for, of which the first is the program's name, and answers the exit
/// status. Without a command it writes the log of the scenario on the input.
pub fn drive<'a, R: Files + Eprint + AllocGlobal, I: BufRead, O: Write>(
    rt: &R,
    words: &'a [&'a str],
    input: &mut Watched<I>,
    output: &mut Watched<O>,
) -> u8
    requires input_whole { has_failed input.old ≡ false }
    requires output_whole { has_failed output.old ≡ false }
    ensures drove { Drove R.File.remaining (length words.entry.now) result
        (I.remaining (device_of input.old)) (I.remaining (device_of input.new))
        (O.contents (device_of output.old)) (O.contents (device_of output.new)) }
    ensures plain { length words.entry.now ≤ 1 → (answer : Answer)
        × (result ≡ status_of_answer answer) × PlaysScene plain_log answer
        (I.remaining (device_of input.old)) (I.remaining (device_of input.new))
        (O.contents (device_of output.old)) (O.contents (device_of output.new)) }
    ensures status { IsStatus result }
    ensures write { (result ≡ 5) ↔ (has_failed output.new ≡ true) }
    ensures read { length words.entry.now ≤ 1
        → (result ≡ 4) ↔ (has_failed input.new ≡ true) }
{
    let asked = parse(rt.alloc(), words);
    let request = asked.as_ref().ok().copied();
    match answer(rt, asked, input, output) {
        Ok(()) => 0,
        Err(fault) => {
            let status = report(rt, &fault);
            tell_more(rt, request, &fault);
            status
        }
    }
}

// Serves a request, writes a help, or says why neither.
fn answer<'a, R: Files + Eprint + AllocGlobal, I: BufRead, O: Write>(
    rt: &R,
    asked: Result<Request<'a>, NoRequest>,
    input: &mut Watched<I>,
    output: &mut Watched<O>,
) -> Result<(), Fault>
    requires in_range { IfOk asked IsRequest }
    requires input_whole { has_failed input.old ≡ false }
    requires output_whole { has_failed output.old ≡ false }
    ensures answered { Answers R.File.remaining asked.entry result
        (I.remaining (device_of input.old)) (I.remaining (device_of input.new))
        (O.contents (device_of output.old)) (O.contents (device_of output.new)) }
    ensures write { (result ≡ Err Fault.Write) ↔ (has_failed output.new ≡ true) }
    ensures read { asked.entry ≡ Ok Request.Plain
        → (result ≡ Err Fault.Read) ↔ (has_failed input.new ≡ true) }
{
    match asked {
        Ok(request) => serve(rt, request, input, output),
        Err(NoRequest::Help(text)) => write(output, text.as_str().as_bytes()),
        Err(NoRequest::Fault(text)) => Err(Fault::CommandLine(text)),
        Err(NoRequest::Memory) => Err(Fault::Memory),
    }
}
