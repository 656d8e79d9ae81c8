//! Requests that lead nowhere, or to which none leads: none of them is circular.
ghost use Rattle.std.specs.Prelude.{◌≡◌, ◌↔◌, ◌<◌, length, IsTrue};
ghost use Rattle.request_circles.specs.reading.Steps.{AreLeft};
ghost use Rattle.request_circles.specs.reading.Trims.{HasStep, IsLoose, IsTrimmed};

use crate::numbers::Numbers;
use crate::requests::Request;
use crate::searches::is_step;

// Whether a request is joined with one that is left.
fn has_step(requests: &[Request], left: &Numbers, ahead: bool, from: usize) -> bool
    requires { from < length requests.now }
    ensures { IsTrue result ↔ HasStep requests.now left.now.marks.items ahead from }
{
    for to in 0..requests.len() {
        if is_step(requests, left, ahead, from, to) {
            return true;
        }
    }
    false
}

// Whether a request is left that leads to none, or to which none leads.
fn is_loose(requests: &[Request], left: &Numbers, number: usize) -> bool
    requires number { number < length requests.now }
    requires left { AreLeft requests.now left.now.marks.items }
    ensures { IsTrue result → IsLoose requests.now left.now.marks.items number }
{
    if !left.has(number) {
        return false;
    }
    // None leads to a request of a task that holds nothing, as most are.
    if requests[number].held == 0 {
        return true;
    }
    !(has_step(requests, left, false, number) && has_step(requests, left, true, number))
}

// Takes such requests away. Whether there was one.
fn trim_once(requests: &[Request], left: &mut Numbers) -> bool
    requires { AreLeft requests.now left.old.marks.items }
    ensures { IsTrimmed requests.now left.old.marks.items left.new.marks.items result }
{
    let mut trimmed = false;
    for number in 0..requests.len() {
        if is_loose(requests, left, number) {
            left.put(number, false);
            trimmed = true;
        }
    }
    trimmed
}

// Takes such requests away, as long as there are any.
pub(crate) fn trim(requests: &[Request], left: &mut Numbers)
    requires { AreLeft requests.now left.old.marks.items }
    ensures left { AreLeft requests.now left.new.marks.items }
    ensures count { length left.new.marks.items ≡ length left.old.marks.items }
{
    while trim_once(requests, left) {}
}
