// The text that is written for the bytes of a file, with its status.
ghost use Rattle.std.specs.Prelude.{◌≡◌, ◌≤◌, ◌<◌, ◌^◌, ◌*◌, List, ℕ, length, nat_lt, sum_by, IfOk, IfErr};
ghost use Rattle.decl_lexer.specs.Lexing.{HasTokens};
ghost use Rattle.decl_lexer.specs.Tokens.{tokens_view, IsFaultOf, IsKnown};
ghost use Rattle.decl_syntax.specs.Counts.{kind_arms};
ghost use Rattle.decl_syntax.specs.Items.{file_view};
ghost use Rattle.decl_syntax.specs.Units.{units};
ghost use Rattle.decl_parser.specs.Counts.{HasAtMost};
ghost use Rattle.decl_parser.specs.FileGrammar.{IsFile, IsFaultOf as IsFaultOfTokens};
ghost use Rattle.match_top.specs.Answers.{Answers, IsJudged, IsAnswerToItems, IsAnswerToTokens, IsDone};
ghost use Rattle.match_top.specs.Answers.{taken, longest_source};
ghost use Rattle.match_top.specs.Asked.{question_view, request_view};
ghost use Rattle.match_top.specs.Reports.{IsReported, IsCounted, status_of};
ghost use Rattle.match_top.specs.Reporting.{AreSpelled, IsSound, setting_in};
ghost use Rattle.match_top.specs.Statuses.{IsVerdict};
ghost use Rattle.match_top.specs.declared.words.Command.TheVariants.{Check};

use crate::Status;
use crate::evaluating::evaluated;
use crate::reading::LONGEST_SOURCE;
use crate::refusals::{refused_at, refused_in};
use crate::reporting::{Reported, report_on};
use crate::source::Source;
use crate::words::{Command, Question, Request};
use decl_lexer::{LexFault, Tokens, lex};
use decl_parser::{ParseFault, parse};
use decl_syntax::File;
use no_memory::NoMemory;
use std::alloc::Global;
use type_table::{DeclFault, TypeTable};
use verdict_json::demo_bytes;

/// What is written, and the status of a run that has written it.
#[derive(Drop)]
pub struct Answer {
    pub text: Vec<u8>,
    pub status: Status,
}

/// What the request has for a file of which these bytes were taken.
pub(crate) fn answer_to(
    alloc: Global,
    request: &Request<'_>,
    source: Vec<u8>,
) -> Result<Answer, NoMemory>
    ensures answers { IfOk result (λ a. (bytes : List ℕ) → source.items ≡ taken bytes
        → Answers (request_view request.now) bytes a.text.items a.status) }
    ensures itself { IfOk result (λ a. Answers (request_view request.now) source.items a.text.items a.status) }
    ensures verdict { IfOk result (λ a. IsVerdict a.status) }
{
    if is_too_long(&source) {
        return refused_at(alloc, 7, None);
    }
    judged(alloc, request, source)
}

// Whether these are more bytes than a source may have.
#[tactic(auto, unfolding(crate::specs::Answers::longest_source))]
fn is_too_long(source: &[u8]) -> bool
    ensures { result ≡ nat_lt longest_source (length source.now) }
{
    source.len() > LONGEST_SOURCE
}

// The answer to a source that is not too long: its first fault, or else by its tokens.
fn judged(alloc: Global, request: &Request<'_>, source: Vec<u8>) -> Result<Answer, NoMemory>
    requires { length source.items ≤ longest_source }
    ensures answers { IfOk result (λ a. IsJudged (request_view request.now) source.items a.text.items a.status) }
    ensures verdict { IfOk result (λ a. IsVerdict a.status) }
{
    match tokens_of(alloc, source) {
        Ok(tokens) => answer_to_tokens(alloc, request, tokens),
        Err(LexFault::Rule { rule, at }) => refused_at(alloc, rule, Some(at)),
        Err(LexFault::NoMemory) => Err(NoMemory),
    }
}

// The tokens of a source, or its first fault. The source is given back, before anything is made of its tokens.
fn tokens_of(alloc: Global, source: Vec<u8>) -> Result<Tokens, LexFault>
    ensures tokens { IfOk result (λ ts. HasTokens source.items (tokens_view ts)) }
    ensures fault { IfErr result (IsFaultOf source.items) }
    ensures known { IfErr result (IsKnown (length source.items)) }
    ensures count { IfOk result (λ ts. length (tokens_view ts) ≤ length source.items) }
{
    lex(alloc, &source)
}

// The answer to the tokens of a source: the answer to the file that they spell, or else their fault.
fn answer_to_tokens(
    alloc: Global,
    request: &Request<'_>,
    tokens: Tokens,
) -> Result<Answer, NoMemory>
    requires few { length (tokens_view tokens) ≤ longest_source }
    requires lexed { (source : List ℕ) × HasTokens source (tokens_view tokens) }
    ensures answers { IfOk result (λ a. IsAnswerToTokens (request_view request.now) (tokens_view tokens) a.text.items a.status) }
    ensures verdict { IfOk result (λ a. IsVerdict a.status) }
{
    let fault = match file_of(alloc, tokens) {
        Ok(file) => return answer_to_file(alloc, request, file),
        Err(fault) => fault,
    };
    match fault {
        ParseFault::Syntax { item, at } => refused_in(alloc, 6, Some(item), Some(at)),
        ParseFault::Wide { item, at } => refused_in(alloc, 9, Some(item), Some(at)),
        ParseFault::NoMemory => Err(NoMemory),
    }
}

// The file that tokens spell, or else their fault. The tokens are given back, before anything is made of the file.
fn file_of(alloc: Global, tokens: Tokens) -> Result<File, ParseFault>
    ensures file { IfOk result (λ f. IsFile (units (tokens_view tokens)) (file_view f)) }
    ensures fault { IfErr result (IsFaultOfTokens (units (tokens_view tokens))) }
    ensures counts { IfOk result (λ f. HasAtMost (2 * length (tokens_view tokens)) (file_view f)) }
{
    parse(alloc, &tokens)
}

// The answer to a file that tokens spell: its first fault on declarations, or else what is asked.
fn answer_to_file(alloc: Global, request: &Request<'_>, file: File) -> Result<Answer, NoMemory>
    requires spelled { AreSpelled (file_view file) }
    requires few { sum_by (λ i. kind_arms i.kind) (file_view file) < 2 ^ 32 }
    ensures answers { IfOk result (λ a. IsAnswerToItems (request_view request.now) (file_view file) a.text.items a.status) }
    ensures verdict { IfOk result (λ a. IsVerdict a.status) }
{
    match TypeTable::build(alloc, &file, request.options.width) {
        Ok(table) => done(
            alloc,
            &request.question,
            &Source {
                table: &table,
                options: request.options,
            },
            file,
        ),
        Err(DeclFault::Rule { rule, item, at }) => refused_in(alloc, rule, Some(item), Some(at)),
        Err(DeclFault::NoMemory) => Err(NoMemory),
    }
}

// What is asked of a file of which no item breaks a rule on declarations. A report takes the file apart.
fn done(
    alloc: Global,
    question: &Question<'_>,
    source: &Source<'_>,
    file: File,
) -> Result<Answer, NoMemory>
    requires sound { IsSound source.now (file_view file) }
    requires few { sum_by (λ i. kind_arms i.kind) (file_view file) < 2 ^ 32 }
    ensures answers { IfOk result (λ a. IsDone (question_view question.now) (setting_in source.now (file_view file)) a.text.items a.status) }
    ensures verdict { IfOk result (λ a. IsVerdict a.status) }
{
    match question {
        Question::Report(command) => reported(alloc, *command, source, file),
        Question::Outcome(evaluation) => evaluated(alloc, evaluation, source, &file),
        Question::Counts => counted(alloc, source, file),
    }
}

// The report on its functions.
fn reported(
    alloc: Global,
    command: Command,
    source: &Source<'_>,
    file: File,
) -> Result<Answer, NoMemory>
    requires sound { IsSound source.now (file_view file) }
    requires few { sum_by (λ i. kind_arms i.kind) (file_view file) < 2 ^ 32 }
    ensures answers { IfOk result (λ a. IsReported command (setting_in source.now (file_view file)) a.text.items a.status) }
    ensures verdict { IfOk result (λ a. IsVerdict a.status) }
{
    let Reported { text, clean, .. } = report_on(alloc, command, source, file)?;
    let status = status_of(clean);
    Ok(Answer { text, status })
}

// The counts in the report that `check` has on its functions.
fn counted(alloc: Global, source: &Source<'_>, file: File) -> Result<Answer, NoMemory>
    requires sound { IsSound source.now (file_view file) }
    requires few { sum_by (λ i. kind_arms i.kind) (file_view file) < 2 ^ 32 }
    ensures answers { IfOk result (λ a. IsCounted Check (setting_in source.now (file_view file)) a.text.items a.status) }
    ensures verdict { IfOk result (λ a. IsVerdict a.status) }
{
    let Reported { counts, clean, .. } = report_on(alloc, Command::Check, source, file)?;
    let text = demo_bytes(alloc, &counts)?;
    let status = status_of(clean);
    Ok(Answer { text, status })
}

fn status_of(clean: bool) -> Status
    ensures status { result ≡ status_of clean }
    ensures verdict { IsVerdict result }
{
    if clean { Status::Clean } else { Status::Found }
}
