//! Classes of requests that differ in their places alone: each leads to the same requests.
ghost use Rattle.std.specs.Prelude.{◌↔◌, length, IfOk, IsTrue, OnOk};
ghost use Rattle.request_circles.specs.reading.Classes.{IsSameClass, HasHead, AreClasses};

use crate::requests::Request;
use std::alloc::Global;
use tm_lattice::NoMemory;

// Of each class a request, and for each request the number of its class.
#[derive(Drop)]
pub(crate) struct Classes {
    pub(crate) heads: Vec<Request>,
    pub(crate) numbers: Vec<usize>,
}

// Whether two requests are of one class.
fn is_same_class(one: Request, other: Request) -> bool
    ensures { IsTrue result ↔ IsSameClass one other }
{
    one.task == other.task && one.held == other.held && one.mutex == other.mutex
}

// Adds the request as a head, unless the last head is of its class.
fn add_head(heads: &mut Vec<Request>, request: Request) -> Result<(), NoMemory>
    ensures { OnOk result (HasHead heads.old.items heads.new.items request) }
{
    let count = heads.len();
    if count > 0 {
        if is_same_class(heads[count - 1], request) {
            return Ok(());
        }
    }
    heads.push(request)?;
    Ok(())
}

// The classes of requests. Where those of a class stand together, each class has one head.
pub(crate) fn classes_of(alloc: Global, requests: &[Request]) -> Result<Classes, NoMemory>
    ensures { IfOk result (λ classes. AreClasses requests.now classes.heads.items classes.numbers.items
        (length requests.now)) }
{
    let mut heads = Vec::new(alloc);
    let mut numbers = Vec::new(alloc);
    for number in 0..requests.len() {
        add_head(&mut heads, requests[number])?;
        numbers.push(heads.len() - 1)?;
    }
    Ok(Classes { heads, numbers })
}
