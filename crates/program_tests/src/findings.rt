//! What `waits` and `ranges` answer: a table over one driver. Each text is worked by hand from the source.

use crate::alone::expect_alone;
use std::test::Fail;

/// Two tasks that take two mutexes in opposite orders, and the same within a third one.
const CROSSED: &[u8] = b"__mutex m;__mutex n;\n\
__task(1) void a(void){__lock(m);__lock(n);__unlock(n);__unlock(m);}\n\
__task(1) void b(void){__lock(n);__lock(m);__unlock(m);__unlock(n);}";

const FENCED: &[u8] = b"__mutex m;__mutex n;__mutex g;\n\
__task(1) void a(void){__lock(g);__lock(m);__lock(n);__unlock(n);__unlock(m);__unlock(g);}\n\
__task(1) void b(void){__lock(g);__lock(n);__lock(m);__unlock(m);__unlock(n);__unlock(g);}";

/// Three tasks in a ring: no two of them wait for each other.
const RING: &[u8] = b"__mutex m;__mutex n;__mutex o;\n\
__task(1) void a(void){__lock(m);__lock(n);__unlock(n);__unlock(m);}\n\
__task(1) void b(void){__lock(n);__lock(o);__unlock(o);__unlock(n);}\n\
__task(1) void c(void){__lock(o);__lock(m);__unlock(m);__unlock(o);}";

/// Both take the mutexes in one order.
const ORDERED: &[u8] = b"__mutex m;__mutex n;\n\
__task(1) void a(void){__lock(m);__lock(n);__unlock(n);__unlock(m);}\n\
__task(1) void b(void){__lock(m);__lock(n);__unlock(n);__unlock(m);}";

/// The second task never comes to its locks.
const UNREACHED: &[u8] = b"__mutex m;__mutex n;\n\
__task(1) void a(void){__lock(m);__lock(n);__unlock(n);__unlock(m);}\n\
__task(1) void b(void){int v;v=0;if(v){__lock(n);__lock(m);__unlock(m);__unlock(n);}}";

/// A mutex that the task holds already is no request.
const TWICE: &[u8] = b"__mutex m;\n__task(1) void t(void){__lock(m);__lock(m);}";

/// A test that never holds, one behind which a task locks, and one in the initial section.
const NEVER: &[u8] = b"int x;int y;\n__task(1) void t(void){x=__input(0,9);if(x>20)y=1;}";

const NEVER_LOCKED: &[u8] = b"__mutex m;int x;\n\
__task(1) void t(void){if(x>3){__lock(m);x=1;__unlock(m);}}";

const NEVER_BEGUN: &[u8] = b"int x;int y;\n\
int main(void){if(x>3)y=1;return 0;}\n\
__task(1) void t(void){x=1;}";

/// A more urgent task that divides by what it has just stored, and a less urgent one that stores 0 there.
const FRESH: &[u8] = b"int x;int r;\n\
__task(2) void hi(void){x=5;r=10/x;}\n\
__task(1) void lo(void){x=0;}";

/// A function on two call paths, of which one comes to its store, and on two of which none does.
const ONE_PATH: &[u8] = b"int x;\n\
void f(int n){if(n>3)x=1;}\n\
__task(1) void t(void){f(1);f(9);}";

const NO_PATH: &[u8] = b"int x;\n\
void f(int n){if(n>3)x=1;}\n\
__task(1) void t(void){f(1);f(2);}";

const USAGE: &[u8] = b"usage: COMMAND [OPTIONS] < source\n";

/// The words, a source, the number with which the program ends on them, and the text that it writes.
static FINDINGS: [(&[&str], &[u8], u8, &[u8]); 29] = [
    // Circular waits.
    (&["waits"], b"", 0, b"waits 0\n"),
    (&["waits"], CROSSED, 1, b"2:34 WAIT\n3:34 WAIT\nwaits 2\n"),
    (&["waits"], FENCED, 0, b"waits 0\n"),
    (
        &["waits"],
        RING,
        1,
        b"2:34 WAIT\n3:34 WAIT\n4:34 WAIT\nwaits 3\n",
    ),
    (&["waits"], ORDERED, 0, b"waits 0\n"),
    (&["waits"], UNREACHED, 0, b"waits 0\n"),
    (&["waits"], TWICE, 0, b"waits 0\n"),
    // Ranges: initial numbers, those that tasks store, and places that nothing comes to.
    (&["ranges"], b"", 0, b"dead 0\n"),
    (
        &["ranges"],
        b"int *p;int x=-7;",
        0,
        b"1:12 x -7 -7\ndead 0\n",
    ),
    (&["ranges"], b"int a[100]={7};", 0, b"1:5 a 0 7\ndead 0\n"),
    (
        &["ranges"],
        NEVER,
        0,
        b"1:5 x 0 9\n1:11 y 0 0\n2:48 DEAD\ndead 1\n",
    ),
    (&["ranges"], FRESH, 0, b"1:5 x 0 5\n1:11 r 0 2\ndead 0\n"),
    (
        &["ranges"],
        NEVER_LOCKED,
        0,
        b"1:15 x 0 0\n2:32 DEAD\n2:43 DEAD\n2:46 DEAD\ndead 3\n",
    ),
    (
        &["ranges"],
        NEVER_BEGUN,
        0,
        b"1:5 x 0 1\n1:11 y 0 0\n2:24 DEAD\ndead 1\n",
    ),
    (&["ranges"], ONE_PATH, 0, b"1:5 x 0 1\ndead 0\n"),
    (&["ranges"], NO_PATH, 0, b"1:5 x 0 0\n2:23 DEAD\ndead 1\n"),
    // A source is refused as `analyse` refuses it.
    (&["analyse"], b"int x;/* x", 2, b"1:7 refused Lexical\n"),
    (&["waits"], b"int x;/* x", 2, b"1:7 refused Lexical\n"),
    (&["ranges"], b"int x;/* x", 2, b"1:7 refused Lexical\n"),
    (&["waits"], b"int x", 2, b"1:5 refused Syntax\n"),
    (
        &["ranges"],
        b"char a[65536],b;",
        2,
        b"refused Limit cells 65536\n",
    ),
    // Neither takes further words.
    (&["waits", "--json"], CROSSED, 3, USAGE),
    (&["waits", "--workers", "2"], CROSSED, 3, USAGE),
    (&["waits", "--"], CROSSED, 3, USAGE),
    (&["waits", "waits"], CROSSED, 3, USAGE),
    (&["ranges", "--json"], NEVER, 3, USAGE),
    (&["ranges", "17"], NEVER, 3, USAGE),
    // C99 5.1.1.2 joins lines before it takes comments out, so the next line would be one.
    (
        &["analyse"],
        b"int x=0,r;\n__task(1) void t(void){ // from C:\\\n x=1;\n r=10/x;}",
        2,
        b"2:25 refused Lexical\n",
    ),
    (
        &["analyse"],
        b"int x=0,r;\n__task(1) void t(void){ // from C:\\.\n x=1;\n r=10/x;}",
        0,
        b"alarms 0\n",
    ),
];

#[test]
fn findings(rt: HostRuntime) -> Result<(), Fail> {
    let alloc = rt.alloc();
    for (words, source, number, text) in &FINDINGS {
        expect_alone(&rt, alloc, words, source, *number, text)?;
    }
    Ok(())
}
