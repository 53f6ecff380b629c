//! What the words are to be answered with.

ghost use Rattle.std.specs.Prelude.{◌≡◌, ◌≢◌, ◌≤◌, ◌++◌, [], length, map, string_bytes, IfOk, IfErr, OnOk, Some, None, Err, IsTrue};
ghost use Rattle.std.specs.Option.{option_map};
ghost use Rattle.sa_outside.specs.Causes.{Rose};
ghost use Rattle.sa_typed.specs.Cells.{cells};
ghost use Rattle.sa_typed.specs.WellTyped.{IsTyped};
ghost use Rattle.sa_report.specs.Alarms.{rising};
ghost use Rattle.sa_top.specs.Answer.{name_of, verdict, report_status, report_of, SourceAnswer, HasText};
ghost use Rattle.sa_top.specs.Reply.{Replies, RepliesUsage};
ghost use Rattle.sa_top.specs.Report.{refused_text, usage_text, limit_text};
ghost use Rattle.sa_top.specs.Top.{IsMissing, LacksFile};

use crate::source::{Rejection, read_source};
use sa_base::{Alarm, Limit, OutOfMemory, Refusal, Status, Text};
use sa_iterate::analyze;
use sa_outside::{Shelf, ShelfError};
use sa_report::{report, rising};
use sa_typed::Program;
use std::alloc::Global;

/// Why there is no text.
#[derive(Clone, Copy, Debug)]
pub enum Silent {
    /// The source couldn't be read.
    Unread,
    /// There wasn't memory enough.
    NoMemory,
}

impl From<OutOfMemory> for Silent {
    ghost use Rattle.sa_top.specs.declared.reply.Silent.TheVariants.{NoMemory};

    ghost from_gives = { λ _ e. e ≡ NoMemory };

    fn from(_: OutOfMemory) -> Self {
        Silent::NoMemory
    }
}

/// A status, and the text that is to be written with it.
#[derive(Debug, Drop)]
pub struct Reply {
    pub status: Status,
    pub text: Vec<u8>,
}

/// The name of the source that the words ask for.
fn name_of(words: &[String]) -> Option<&str>
    ensures { option_map (λ s. s.now) result ≡ name_of (map string_bytes words.now) }
{
    match words {
        [mode, name] => {
            if mode.as_str() == "analyze" {
                Some(name.as_str())
            } else {
                None
            }
        }
        _ => None,
    }
}

fn usage_reply(alloc: Global) -> Result<Reply, OutOfMemory>
    ensures { IfOk result (λ r. (r.status ≡ Status.Usage) × (r.text.items ≡ usage_text)) }
{
    let line = "usage: sa MODE NAMES [--jobs N] [--json]\n";
    Ok(Reply {
        status: Status::Usage,
        text: Vec::from_slice(alloc, line.as_bytes())?,
    })
}

#[tactic(auto, unfolding(crate::specs::Report::limit_text))]
fn limit_reply(alloc: Global, limit: Limit) -> Result<Reply, OutOfMemory>
    ensures { IfOk result (λ r. (r.status ≡ Status.Limit) × (r.text.items ≡ limit_text limit)) }
{
    let word = limit.word();
    let number = limit.number();
    let line = format!(in alloc; "limit {word} {number}\n")?;
    Ok(Reply {
        status: Status::Limit,
        text: Vec::from_slice(alloc, line.as_bytes())?,
    })
}

#[tactic(auto, unfolding(crate::specs::Report::refused_text))]
fn refused_reply(alloc: Global, refusal: Refusal) -> Result<Reply, OutOfMemory>
    ensures { IfOk result (λ r. (r.status ≡ Status.SourceRefused) × (r.text.items ≡ refused_text refusal.code refusal.pos)) }
{
    let word = refusal.code.word(alloc)?;
    let line = refusal.pos.line;
    let col = refusal.pos.col;
    let text = format!(in alloc; "source refused {word} {line}:{col}\n")?;
    Ok(Reply {
        status: Status::SourceRefused,
        text: Vec::from_slice(alloc, text.as_bytes())?,
    })
}

fn verdict(alarms: &[Alarm]) -> Status
    ensures { result ≡ verdict alarms.now }
{
    match alarms {
        [] => Status::Clean,
        [_, ..] => Status::Alarmed,
    }
}

/// The report on a program.
fn built_reply(alloc: Global, program: &Program) -> Result<Reply, OutOfMemory>
    requires typed { IsTyped program.now }
    requires small { length (cells program.now) ≤ 65536 }
    ensures { IfOk result (λ r. (r.status ≡ report_status program.now) × (r.text.items ≡ report_of program.now)) }
{
    let analysis = analyze(alloc, program)?;
    let alarms = rising(alloc, &analysis.alarms)?;
    let text = report(alloc, program, &analysis, &alarms)?;
    Ok(Reply {
        status: verdict(&alarms),
        text,
    })
}

/// The reply to a source within the limit.
fn source_reply(alloc: Global, source: &[u8]) -> Result<Reply, OutOfMemory>
    requires { length source.now ≤ 4194304 }
    ensures fits { IfOk result (λ r. SourceAnswer source.now r.status r.text.items) }
    ensures status { IfOk result (λ r. HasText r.status) }
    ensures no_usage { IfOk result (λ r. r.status ≢ Status.Usage) }
{
    match read_source(alloc, source) {
        Ok(program) => built_reply(alloc, &program),
        Err(Rejection::Refused(refusal)) => refused_reply(alloc, refusal),
        Err(Rejection::Above(limit)) => limit_reply(alloc, limit),
        Err(Rejection::NoMemory) => Err(OutOfMemory),
    }
}

/// The reply about the file of that name.
fn named_reply<H: Shelf>(alloc: Global, name: &str, shelf: &mut H) -> Result<Reply, Silent>
    ensures answered { Replies (H.files shelf.old) (Some name.now) result }
    ensures status { IfOk result (λ r. HasText r.status) }
    ensures no_usage { IfOk result (λ r. r.status ≢ Status.Usage) }
    ensures count { H.faults shelf.old ≤ H.faults shelf.new }
    ensures unread { result ≡ Err Silent.Unread → Rose (H.faults shelf.old) (H.faults shelf.new) }
    ensures missing { IsTrue (H.sure shelf.old) → result ≡ Err Silent.Unread → LacksFile (H.files shelf.old) name.now }
{
    let name = Text::of(alloc, name)?;
    let mut source = Vec::new(alloc);
    match shelf.read(alloc, &name, Limit::Source.number(), &mut source) {
        Ok(()) => Ok(source_reply(alloc, &source)?),
        Err(ShelfError::TooLong) => Ok(limit_reply(alloc, Limit::Source)?),
        Err(ShelfError::Failed) => Err(Silent::Unread),
        Err(ShelfError::OutOfMemory) => Err(Silent::NoMemory),
    }
}

/// The reply to the words.
pub fn reply_to<H: Shelf>(alloc: Global, words: &[String], shelf: &mut H) -> Result<Reply, Silent>
    ensures answered { Replies (H.files shelf.old) (name_of (map string_bytes words.now)) result }
    ensures status { IfOk result (λ r. HasText r.status) }
    ensures usage { RepliesUsage (name_of (map string_bytes words.now)) result }
    ensures count { H.faults shelf.old ≤ H.faults shelf.new }
    ensures unread { result ≡ Err Silent.Unread → Rose (H.faults shelf.old) (H.faults shelf.new) }
    ensures missing { IsTrue (H.sure shelf.old) → result ≡ Err Silent.Unread → IsMissing (H.files shelf.old) (map string_bytes words.now) }
{
    match name_of(words) {
        None => Ok(usage_reply(alloc)?),
        Some(name) => named_reply(alloc, name, shelf),
    }
}
