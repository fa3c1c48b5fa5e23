// Runs a primitive's list of stored cases, and compares each answer and every lent byte with the stored ones.
ghost use Rattle.std.specs.Prelude.{◌≤◌, length};

use crate::called::{Called, NotCalled};
use crate::cases::{Case, Sheets};
use crate::{
    cases, color_matrix_cases, component_transfer_cases, composite_cases, convolve_matrix_cases,
    displacement_map_cases, lighting_cases, morphology_cases, turbulence_cases,
};
use sheet::Refusal;
use std::io;
use std::rt::Files;
use stored::list::LIST;
use stored::tally::Tally;
use stored::words::Words;
use stored::{answers, list};

// No less than the longest sheet of the lists.
const SHEET: usize = 20480;

// Runs the cases of the file at `path`, and prints how many there are and how many differ.
pub fn replay(rt: &(impl Files + Print), name: &[u8], path: &[u8]) -> io::Result<()> {
    let mut bytes = [0u8; LIST];
    let end = list::read(rt, path, &mut bytes)?;
    run(&bytes[..end]).whole(end < LIST).print(rt, name)?;
    Ok(())
}

fn run(list: &[u8]) -> Tally
    requires { length list.now ≤ 262144 }
{
    let mut a = [0u8; SHEET];
    let mut b = [0u8; SHEET];
    let mut c = [0u8; SHEET];
    let mut tally = Tally::default();
    let mut words = Words { list, at: 0 };
    while words.at < list.len() {
        let case = cases::read(words);
        tally = counted(tally, case, &mut a, &mut b, &mut c);
        words = case.sheets.third.rest;
    }
    tally
}

// Counts the case, called on copies of its sheets. A sheet that is not all there, or that a buffer cannot hold, differs.
fn counted(tally: Tally, case: Case, a: &mut [u8], b: &mut [u8], c: &mut [u8]) -> Tally {
    let a = case.sheets.first.load(a);
    let b = case.sheets.second.load(b);
    let c = case.sheets.third.load(c);
    match called(case, a, b, c) {
        Ok(answer) => tally.counted(agrees(case.sheets, answer, a, b, c)),
        Err(NotCalled::Unnamed) => tally.unnamed(),
        Err(NotCalled::Misread) => tally.counted(false),
    }
}

// Calls the primitive of the case's code, on as many sheets as it takes.
fn called(case: Case, a: &mut [u8], b: &mut [u8], c: &mut [u8]) -> Called {
    match (case.code, case.sheet_count) {
        (1, 2) => morphology_cases::call(case, a, b),
        (2, 1) => color_matrix_cases::call(case, a),
        (3, 3) => composite_cases::call(case, a, b, c),
        (4, 1) => component_transfer_cases::call(case, a),
        (5, 2) => convolve_matrix_cases::call(case, a, b),
        (6, 3) => displacement_map_cases::call(case, a, b, c),
        (7, 1) => turbulence_cases::call(case, a),
        (8, 2) => lighting_cases::call_diffuse(case, a, b),
        (9, 2) => lighting_cases::call_specular(case, a, b),
        _ => Err(NotCalled::Misread),
    }
}

// Whether the answer and the sheets after the call are the stored ones.
fn agrees(sheets: Sheets, answer: Result<(), Refusal>, a: &[u8], b: &[u8], c: &[u8]) -> bool {
    answers::is_stored(sheets.answer, answer.err().map_or(0, u8::from), 0)
        && sheets.first.is_left(a)
        && sheets.second.is_left(b)
        && sheets.third.is_left(c)
}
