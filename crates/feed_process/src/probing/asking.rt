//! What a server answers to tokens: one of the middle, the one before the newest, the newest, and
//! one that it can't have given.

use super::judging::Feed;
use super::passage::{Passage, Patience, ask, tell_passage};
use super::report::Report;
use feed_commands::Server;
use feed_probe::{
    Answer, Asked, Behaviour, TokenEnd, behaviour_of, put_notes, token_end, unheld_token,
    wants_fresh,
};
use std::alloc::{AllocError, Global};

/// For how long an answer to a token is read, in milliseconds.
const SHORT: Patience = Patience {
    whole: 6_000,
    first: 2_000,
    next: 1_000,
};

const ASKS_FRESH: &str =
    "a relay that comes back with a token would lack what came, or show states \
                          that are over: give --fresh, so that each connection asks for everything";

const REFUSES_NEWEST: &str = "it doesn't take its own token: each new connection asks for \
                              everything, and screens begin again then. With --fresh they go on, \
                              if the state is the same";

const FORGETS: &str = "a relay that comes back with such a token asks for everything: nothing is \
                       lost";

const TAKES_ANY: &str = "if the server is set back, a relay may wait at its old state: never give \
                         --no-recheck, start with --new for each new feed, and watch the age of the \
                         last commit";

const FAILS_SO: &str = "a relay that asks so fails, and asks again up to 30 s later; for a token \
                        that isn't held, status 400 alone says so";

const LOOK_AGAIN: &str = "probe again once it has more tokens";

/// A token to ask with, and what stands up to the end of its line, without keep-alives.
#[derive(Drop)]
struct Question {
    asked: Asked,
    token: String,
    end: usize,
}

/// What a token is called in a finding, and its topic.
fn name_of(asked: Asked) -> (&'static str, &'static str) {
    match asked {
        Asked::Middle => ("since", "a token of the middle"),
        Asked::Before => ("recheck", "the token before the newest"),
        Asked::Newest => ("newest", "its newest token"),
        Asked::Unheld => ("unheld", "a token that it can't have given"),
    }
}

/// What is said of an answer.
fn words_of(answer: Answer) -> &'static str {
    match answer {
        Answer::Failed(_) => "no answer that says something",
        Answer::Refused => "status 400",
        Answer::Sent(Behaviour::Nothing) => "status 200, and no line yet",
        Answer::Sent(Behaviour::GoesOn) => "it goes on after it",
        Answer::Sent(Behaviour::BeginsAgain) => "it begins again with its first line",
        Answer::Sent(Behaviour::SendsAgain) => "it begins with an earlier line, and goes on",
        Answer::Sent(Behaviour::LeavesOut) =>
            "it leaves out lines that its feed from the start has",
        Answer::Sent(Behaviour::Differs) => "it sends other lines than its feed from the start",
    }
}

/// Appends the question with the token of this number, where there is one.
fn push_marked(
    alloc: Global,
    notes: &[u8],
    asked: Asked,
    number: Option<u64>,
    questions: &mut Vec<Question>,
) -> Result<(), AllocError> {
    let Some(number) = number else {
        return Ok(());
    };
    if let Some(found) = token_end(alloc, notes, number)? {
        let TokenEnd { token, end } = found;
        questions.push(Question { asked, token, end })?;
    }
    Ok(())
}

/// The questions to a server that sent so many tokens.
fn questions_of(alloc: Global, notes: &[u8], tokens: u64) -> Result<Vec<Question>, AllocError> {
    let mut questions = Vec::new(alloc);
    let middle = if tokens > 2 { Some(tokens / 2) } else { None };
    push_marked(alloc, notes, Asked::Middle, middle, &mut questions)?;
    push_marked(
        alloc,
        notes,
        Asked::Before,
        tokens.checked_sub(2),
        &mut questions,
    )?;
    push_marked(
        alloc,
        notes,
        Asked::Newest,
        tokens.checked_sub(1),
        &mut questions,
    )?;
    let Some(newest) = questions.as_slice().last() else {
        return Ok(questions);
    };
    let token = unheld_token(alloc, newest.token.as_str())?;
    questions.push(Question {
        asked: Asked::Unheld,
        token,
        end: notes.len(),
    })?;
    Ok(questions)
}

/// What came of a request with a token.
fn answer_of(
    alloc: Global,
    notes: &[u8],
    question: &Question,
    passage: &Passage,
) -> Result<Answer, AllocError> {
    match passage.response.status() {
        200 => {}
        400 => return Ok(Answer::Refused),
        status => return Ok(Answer::Failed(status)),
    }
    let mut sent = Vec::new(alloc);
    put_notes(passage.record.text(), &mut sent)?;
    let end = question.end.min(notes.len());
    Ok(Answer::Sent(behaviour_of(notes, end, sent.as_slice())))
}

/// Tells what is answered to a token.
fn tell(report: &mut Report, question: &Question, answer: Answer) -> Result<(), AllocError> {
    let alloc = report.alloc();
    let (topic, name) = name_of(question.asked);
    let (token, words) = (question.token.as_str(), words_of(answer));
    let text = match answer {
        Answer::Failed(status) if status > 0 => {
            format!(in alloc; "asked with {token:?}, {name}: status {status}")?
        }
        _ => format!(in alloc; "asked with {token:?}, {name}: {words}")?,
    };
    if wants_fresh(question.asked, answer) {
        report.needs.is_fresh = true;
        let means = if answer == Answer::Refused {
            REFUSES_NEWEST
        } else {
            ASKS_FRESH
        };
        return report.note(topic, text, means);
    }
    match (question.asked, answer) {
        (_, Answer::Failed(_)) => report.note(topic, text, FAILS_SO),
        (Asked::Unheld, Answer::Refused) => report.fine(topic, text),
        (Asked::Unheld, _) => report.note(topic, text, TAKES_ANY),
        (_, Answer::Refused) => report.note(topic, text, FORGETS),
        _ => report.fine(topic, text),
    }
}

/// Tells which questions were not asked, for want of tokens.
fn tell_lack(report: &mut Report, tokens: u64) -> Result<(), AllocError> {
    for (asked, least) in [(Asked::Middle, 3), (Asked::Before, 2)] {
        if tokens < least {
            let (topic, name) = name_of(asked);
            let text = format!(in report.alloc();
                "not asked with {name}: so far it sent {tokens}"
            )?;
            report.note(topic, text, LOOK_AGAIN)?;
        }
    }
    Ok(())
}

/// Asks a server with its tokens, and tells what it answers.
pub(super) fn see_answers(
    rt: &HostRuntime,
    report: &mut Report,
    server: &Server<'_>,
    feed: Feed<'_>,
    is_verbose: bool,
) -> Result<(), AllocError> {
    let alloc = rt.alloc();
    let mut notes = Vec::new(alloc);
    put_notes(feed.text(), &mut notes)?;
    let notes = notes.as_slice();
    tell_lack(report, feed.surveyed.counts.tokens)?;
    for question in &questions_of(alloc, notes, feed.surveyed.counts.tokens)? {
        let passage = ask(rt, server, Some(question.token.as_str()), SHORT)?;
        if is_verbose {
            tell_passage(rt, question.token.as_str(), &passage);
        }
        let answer = answer_of(alloc, notes, question, &passage)?;
        tell(report, question, answer)?;
    }
    Ok(())
}
