// The findings of a report.
ghost use Rattle.std.specs.Prelude.{◌≡◌, ◌++◌, ◌∷◌, [], OnOk, IfOk, map};
ghost use Rattle.explain_report.specs.Records.{judged_view, refused_view, function_view, report_view, overlap_view};
ghost use Rattle.explain_places.specs.Bodies.{bodies_of};
ghost use Rattle.explain_places.specs.Spans.{Rise};
ghost use Rattle.explain_text.specs.Findings.{finding_view, head_of, broken_at, broken_place, byte_place, file_broken_place, unreached_finding, overlap_finding, missing_findings, function_findings, functions_findings, report_findings, refused_finding};

use crate::source::is_place;
use explain_places::{
    Body, End, Piece, Place, Span, binding_at, name_at, pair_at, pattern_at, token_at,
};
use explain_report::{Function, Judged, Overlap, Refused, Report, Unreached, Verdict};
use std::alloc::{AllocError, Global};

/// What a finding says.
#[derive(Clone, Copy, Debug)]
pub(crate) enum Kind<'r, 'a> {
    /// The match of a function is not exhaustive: the function's number, where arms are added, and what is missing.
    Missing {
        function: &'a str,
        number: usize,
        end: End,
        witnesses: &'r [&'a str],
    },
    /// No value reaches an arm, or an alternative.
    Unreached {
        function: &'a str,
        whole: bool,
    },
    /// Two ranges have one number in common; the place of the other one.
    Overlap {
        function: &'a str,
        other: Place,
        value: &'a str,
    },
    /// A function breaks a rule.
    Refused {
        function: &'a str,
        rule: u64,
        name: &'a str,
    },
    /// The file breaks a rule.
    FileRefused {
        rule: u64,
        name: &'a str,
    },
}

/// A finding, and its place.
#[derive(Clone, Copy, Debug)]
pub(crate) struct Finding<'r, 'a> {
    pub place: Place,
    pub kind: Kind<'r, 'a>,
}

/// A function of the file: its number from 0, what its match is on, and where arms are added to it.
#[derive(Clone, Copy, Debug)]
pub(crate) struct Head {
    pub number: usize,
    pub scrutinee: Place,
    pub end: End,
}

/// A file: its bytes, its tokens, and the bodies of its functions.
#[derive(Clone, Copy, Debug)]
pub(crate) struct Site<'s> {
    pub file: &'s [u8],
    pub pieces: &'s [Piece],
    pub bodies: &'s [Body],
}

// Adds the arms and alternatives that no value reaches.
fn add_unreached<'r, 'a>(
    found: &mut Vec<Finding<'r, 'a>>,
    pieces: &[Piece],
    function: &'a str,
    all: &[Unreached],
) -> Result<(), AllocError>
    requires { Rise pieces.now }
    ensures { OnOk result (map finding_view found.new.items
        ≡ map finding_view found.old.items ++ map (unreached_finding pieces.now function.now) all.now) }
{
    for one in all {
        found.push(Finding {
            place: pattern_at(pieces, one.at as usize, one.whole),
            kind: Kind::Unreached {
                function,
                whole: one.whole,
            },
        })?;
    }
    Ok(())
}

// Adds the ranges that overlap.
fn add_overlaps<'r, 'a>(
    found: &mut Vec<Finding<'r, 'a>>,
    pieces: &[Piece],
    function: &'a str,
    all: &[Overlap<'a>],
) -> Result<(), AllocError>
    requires { Rise pieces.now }
    ensures { OnOk result (map finding_view found.new.items
        ≡ map finding_view found.old.items ++ map (overlap_finding pieces.now function.now) (map overlap_view all.now)) }
{
    for one in all {
        found.push(Finding {
            place: pattern_at(pieces, one.at as usize, false),
            kind: Kind::Overlap {
                function,
                other: pattern_at(pieces, one.with as usize, false),
                value: one.value,
            },
        })?;
    }
    Ok(())
}

// Adds that the match of a function is not exhaustive.
fn add_missing<'r, 'a>(
    found: &mut Vec<Finding<'r, 'a>>,
    function: &'a str,
    head: Head,
    judged: &'r Judged<'a>,
) -> Result<(), AllocError>
    ensures { OnOk result (map finding_view found.new.items
        ≡ map finding_view found.old.items ++ missing_findings function.now head (judged_view judged.now)) }
{
    if !judged.exhaustive {
        found.push(Finding {
            place: head.scrutinee,
            kind: Kind::Missing {
                function,
                number: head.number,
                end: head.end,
                witnesses: judged.witnesses.as_slice(),
            },
        })?;
    }
    Ok(())
}

// Where a function breaks a rule whose place begins there.
fn broken_at(pieces: &[Piece], rule: u64, at: usize) -> Place
    requires { Rise pieces.now }
    ensures { result ≡ broken_at pieces.now rule at }
{
    match rule {
        34 => pair_at(pieces, at),
        21 | 30 => binding_at(pieces, at),
        _ => pattern_at(pieces, at, false),
    }
}

// Where a function breaks a rule.
fn broken_place(pieces: &[Piece], rule: u64, at: Option<u64>) -> Place
    requires { Rise pieces.now }
    ensures { result ≡ broken_place pieces.now rule at }
{
    match at {
        Some(at) => broken_at(pieces, rule, at as usize),
        None => Place::Nowhere,
    }
}

// Adds what is found of a function.
fn add_function<'r, 'a>(
    found: &mut Vec<Finding<'r, 'a>>,
    pieces: &[Piece],
    head: Head,
    function: &'r Function<'a>,
) -> Result<(), AllocError>
    requires { Rise pieces.now }
    ensures { OnOk result (map finding_view found.new.items
        ≡ map finding_view found.old.items ++ function_findings pieces.now head (function_view function.now)) }
{
    match &function.verdict {
        Verdict::Judged(judged) => {
            add_missing(found, function.name, head, judged)?;
            add_unreached(found, pieces, function.name, judged.unreachable.as_slice())?;
            add_overlaps(found, pieces, function.name, judged.overlaps.as_slice())?;
            Ok(())
        }
        Verdict::Refused(refused) => {
            found.push(Finding {
                place: broken_place(pieces, refused.rule, refused.at),
                kind: Kind::Refused {
                    function: function.name,
                    rule: refused.rule,
                    name: refused.name,
                },
            })?;
            Ok(())
        }
    }
}

// The function of this number: what its match is on, and where arms are added to it.
fn head_of(site: &Site<'_>, i: usize) -> Head
    requires { site.now.bodies.now ≡ bodies_of site.now.pieces.now }
    ensures { result ≡ head_of site.now.pieces.now i }
{
    match site.bodies.get(i) {
        Some(body) => Head {
            number: i,
            scrutinee: Place::There(body.scrutinee),
            end: body.end,
        },
        None => Head {
            number: i,
            scrutinee: Place::Lost,
            end: End {
                place: Place::Nowhere,
                comma: false,
            },
        },
    }
}

// What is found of functions.
fn functions_findings<'r, 'a>(
    alloc: Global,
    site: &Site<'_>,
    functions: &'r [Function<'a>],
) -> Result<Vec<Finding<'r, 'a>>, AllocError>
    requires order { Rise site.now.pieces.now }
    requires bodies { site.now.bodies.now ≡ bodies_of site.now.pieces.now }
    ensures { IfOk result (λ found. map finding_view found.items
        ≡ functions_findings site.now.pieces.now 0 (map function_view functions.now)) }
{
    let mut found = Vec::new(alloc);
    for i in 0..functions.len() {
        add_function(&mut found, site.pieces, head_of(site, i), &functions[i])?;
    }
    Ok(found)
}

// A byte of the file, or any one where it is no text.
fn byte_place(file: &[u8], at: u64, any: bool) -> Place
    ensures { result ≡ byte_place file.now at any }
{
    if is_place(file, at, any) {
        let from = at as usize;
        Place::There(Span { from, to: from })
    } else {
        Place::Lost
    }
}

// Where the file breaks a rule.
fn file_broken_place(site: &Site<'_>, rule: u64, at: Option<u64>) -> Place
    requires { Rise site.now.pieces.now }
    ensures { result ≡ file_broken_place site.now.file.now site.now.pieces.now rule at }
{
    match at {
        Some(at) if rule <= 5 => byte_place(site.file, at, rule == 1),
        Some(at) if rule == 6 => token_at(site.pieces, at as usize),
        Some(at) => name_at(site.pieces, at as usize),
        None => Place::Nowhere,
    }
}

// What is found of a file that is refused.
fn refused_finding<'r, 'a>(site: &Site<'_>, refused: &Refused<'a>) -> Finding<'r, 'a>
    requires { Rise site.now.pieces.now }
    ensures { finding_view result ≡ refused_finding site.now.file.now site.now.pieces.now (refused_view refused.now) }
{
    Finding {
        place: file_broken_place(site, refused.rule, refused.at),
        kind: Kind::FileRefused {
            rule: refused.rule,
            name: refused.name,
        },
    }
}

// What a report has found, in its order.
pub(crate) fn report_findings<'r, 'a>(
    alloc: Global,
    site: &Site<'_>,
    report: &'r Report<'a>,
) -> Result<Vec<Finding<'r, 'a>>, AllocError>
    requires order { Rise site.now.pieces.now }
    requires bodies { site.now.bodies.now ≡ bodies_of site.now.pieces.now }
    ensures { IfOk result (λ found. map finding_view found.items
        ≡ report_findings site.now.file.now site.now.pieces.now (report_view report.now)) }
{
    match report {
        Report::Functions(functions) => functions_findings(alloc, site, functions.as_slice()),
        Report::Refused(refused) => {
            let mut found = Vec::with_capacity(alloc, 1)?;
            found.push(refused_finding(site, refused))?;
            Ok(found)
        }
    }
}
