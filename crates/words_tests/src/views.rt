//! Views of small reports.

use report_logs::{Answers, Frame, log};
use report_views::{Form, ViewFail, cause_line, view};
use std::alloc::Global;
use std::process::Abort;
use std::test::Fail;

const EMPTY: &str = "{\"alarms\":[],\"count\":0}\n";

const ONE: &str = "{\"alarms\":[{\"class\":\"DIV\",\"col\":5,\"line\":2}],\"count\":1}\n";

const TWO: &str =
    "{\"alarms\":[{\"class\":\"RACE\",\"col\":1,\"line\":2},{\"class\":\"DIV\",\"col\":9,\"line\":5}],\"count\":2}";

const DIV: &str = ": warning: the divisor may be zero [DIV]\nalarms 1\n";

// A report over a text, whose first file is `a.c`, and its lines.
static LINES: [(&str, &str, &str); 24] = [
    // Lines without marks keep their places; an empty report has no lines.
    (EMPTY, "", "alarms 0\n"),
    (EMPTY, "# 1 \"a.c\"\nx\n", "alarms 0\n"),
    (ONE, "x\nx\n", "a.c:2:5"),
    (ONE, "x\nx", "a.c:2:5"),
    // Marks: the line behind one has its number and its name.
    (ONE, "# 7 \"b.h\"\nx\n", "b.h:7:5"),
    (ONE, "# 7 \"b.h\" 1 3\nx\n", "b.h:7:5"),
    (ONE, "#line 7 \"b.h\"\nx\n", "b.h:7:5"),
    (ONE, " \t#  line \t 0007\t\"b.h\"x\nx\n", "b.h:7:5"),
    (ONE, "#7\nx\n", "a.c:7:5"),
    (ONE, "# 2147483647 \"b.h\"\nx\n", "b.h:2147483647:5"),
    (ONE, "#pragma once\nx\n", "a.c:2:5"),
    (ONE, "#define N 0\nx\n", "a.c:2:5"),
    (ONE, "int n; # 7\nx\n", "a.c:2:5"),
    // A broken mark is none where it is none.
    (ONE, "#\nx\n", "a.c:2:5"),
    // Names.
    (ONE, "# 7 \"b c.h\"\nx\n", "b c.h:7:5"),
    (ONE, "# 7 \"b\\\"c\\\\d.h\" 2\nx\n", "b\"c\\d.h:7:5"),
    (ONE, "# 7 \"b\\\\\"\nx\n", "b\\:7:5"),
    (ONE, "# 7 \"\\303\\244\\101.h\"\nx\n", "\u{e4}A.h:7:5"),
    (
        ONE,
        "# 7 \"b\\nc\\012d\\177\"\nx\n",
        "b\\012c\\012d\\177:7:5",
    ),
    (ONE, "# 7 \"b\\qc\\9\\400\"\nx\n", "b\\qc\\9\\400:7:5"),
    (ONE, "# 7 \"\"\nx\n", ":7:5"),
    (ONE, "# 7 \"\u{e4}.h\"\nx\n", "\u{e4}.h:7:5"),
    // Other layouts of the same JSON.
    (
        " { \"count\" : 1, \"alarms\" : [ {\"line\": 2, \"col\": 5, \"class\": \"D\\u0049V\"} ] } ",
        "x\nx\n",
        "a.c:2:5",
    ),
    (
        TWO,
        "# 3 \"b.h\" 1\ny\n# 2 \"a.c\" 2\nx\nx\n",
        "b.h:3:1: warning: another task may access this object at the same time, and one of the two stores [RACE]\n\
        a.c:3:9: warning: the divisor may be zero [DIV]\nalarms 2\n",
    ),
];

// A report over a text, and why it is refused.
static REFUSED: [(&str, &str, &str); 27] = [
    ("", "x\nx\n", "the report is no JSON"),
    ("alarms 0\n", "x\nx\n", "the report is no JSON"),
    (
        "{\"alarms\":[],\"count\":0",
        "x\nx\n",
        "the report is no JSON",
    ),
    (
        "{\"alarms\":[],\"count\":0}}",
        "x\nx\n",
        "the report is no JSON",
    ),
    (
        "[]",
        "x\nx\n",
        "the report is JSON, but no report of alarms",
    ),
    (
        "{\"alarms\":[]}",
        "x\nx\n",
        "the report is JSON, but no report of alarms",
    ),
    (
        "{\"alarms\":[],\"count\":1}",
        "x\nx\n",
        "the report is JSON, but no report of alarms",
    ),
    (
        "{\"alarms\":[],\"count\":0.0}",
        "x\nx\n",
        "the report is JSON, but no report of alarms",
    ),
    (
        "{\"alarms\":{},\"count\":0}",
        "x\nx\n",
        "the report is JSON, but no report of alarms",
    ),
    (
        "{\"alarms\":[],\"count\":0,\"more\":1}",
        "x\nx\n",
        "the report is JSON, but no report of alarms",
    ),
    (
        "{\"alarms\":[{\"class\":\"DIVIDE\",\"col\":5,\"line\":2}],\"count\":1}",
        "x\nx\n",
        "the report is JSON, but no report of alarms",
    ),
    (
        "{\"alarms\":[{\"class\":\"DIV\",\"col\":5,\"line\":2,\"file\":1}],\"count\":1}",
        "x\nx\n",
        "the report is JSON, but no report of alarms",
    ),
    (
        "{\"alarms\":[{\"class\":\"DIV\",\"col\":5}],\"count\":1}",
        "x\nx\n",
        "the report is JSON, but no report of alarms",
    ),
    (
        "{\"alarms\":[{\"class\":\"DIV\",\"col\":\"5\",\"line\":2}],\"count\":1}",
        "x\nx\n",
        "the report is JSON, but no report of alarms",
    ),
    (
        "{\"alarms\":[{\"class\":\"DIV\",\"col\":-5,\"line\":2}],\"count\":1}",
        "x\nx\n",
        "the report is JSON, but no report of alarms",
    ),
    (
        "{\"alarms\":[{\"class\":\"DIV\",\"col\":5,\"line\":4294967296}],\"count\":1}",
        "x\nx\n",
        "the report is JSON, but no report of alarms",
    ),
    (ONE, "x", "in no line of a file stands the place 2:5"),
    (ONE, "", "in no line of a file stands the place 2:5"),
    (
        ONE,
        "# 0 \"<built-in>\"\nx\n",
        "in no line of a file stands the place 2:5",
    ),
    (
        "{\"alarms\":[{\"class\":\"DIV\",\"col\":5,\"line\":0}],\"count\":1}",
        "x\nx\n",
        "in no line of a file stands the place 0:5",
    ),
    (
        "{\"alarms\":[{\"class\":\"DIV\",\"col\":0,\"line\":1}],\"count\":1}",
        "x\nx\n",
        "in no line of a file stands the place 1:0",
    ),
    (
        EMPTY,
        "# 7x \"b.h\"\nx\n",
        "a line mark that cannot be read is line 1",
    ),
    (
        EMPTY,
        "x\n# 2147483648 \"b.h\"\nx\n",
        "a line mark that cannot be read is line 2",
    ),
    (
        EMPTY,
        "x\n#line\nx\n",
        "a line mark that cannot be read is line 2",
    ),
    (
        EMPTY,
        "x\n\n#line N \"b.h\"\nx\n",
        "a line mark that cannot be read is line 3",
    ),
    (
        EMPTY,
        "# 7 b.h\nx\n",
        "a line mark that cannot be read is line 1",
    ),
    (
        EMPTY,
        "# 7 \"b.h\\\"\nx\n",
        "a line mark that cannot be read is line 1",
    ),
];

const NO_WAITS: &str = "waits 0\n";

const NO_DEAD: &str = "dead 0\n";

const NO_ASSUMPTIONS: &str = "assumptions 0\n";

// What is told of the four alarms below: of the first and the third.
const WAYS: &str =
    "2:1 RACE with 4:18 store of y in f\n4:24 DIV path 4:24 in f\n4:24 DIV call 5:1 called \"here\"\n";

// Texts of ways over a text of two lines, and why an alarm RACE at 1:1 has no log with them.
static UNTOLD: [(&str, &str); 9] = [
    ("waits 0\n", "the text of the ways tells no ways"),
    ("1:1 RACE with 1:1 x", "the text of the ways tells no ways"),
    (
        "1:1 RACE when 1:1 x\n",
        "the text of the ways tells no ways",
    ),
    (
        "1:1 RACES with 1:1 x\n",
        "the text of the ways tells no ways",
    ),
    (
        "1:1 RACE with 01:1 x\n",
        "the text of the ways tells no ways",
    ),
    (
        "1:1 RACE with 1:1 x\n\n",
        "the text of the ways tells no ways",
    ),
    (
        "1:1 RACE with 1:1 x\n1:1 DIV path 1:1 y\n",
        "of no alarm in its turn is what is told at the place 1:1",
    ),
    (
        "2:1 RACE with 1:1 x\n1:1 RACE with 1:1 x\n",
        "of no alarm in its turn is what is told at the place 2:1",
    ),
    (
        "1:1 RACE with 1:1 x\n1:1 RACE path 3:1 y\n",
        "in no line of a file stands the place 3:1",
    ),
];

const RACE: &str = "{\"alarms\":[{\"class\":\"RACE\",\"col\":1,\"line\":1}],\"count\":1}";

// Texts of assumptions over a text of two lines, and why an empty report has no log with them.
static UNASSUMED: [(&str, &str); 7] = [
    ("", "the text of the assumptions lists no assumptions"),
    (NO_DEAD, "the text of the assumptions lists no assumptions"),
    (
        "2:1 ORDERS\nassumptions 1\n",
        "the text of the assumptions lists no assumptions",
    ),
    (
        "2:1 DEAD\nassumptions 1\n",
        "the text of the assumptions lists no assumptions",
    ),
    (
        "2:1 ORDER\nassumptions 2\n",
        "the text of the assumptions lists no assumptions",
    ),
    (
        "02:1 ORDER\nassumptions 1\n",
        "the text of the assumptions lists no assumptions",
    ),
    (
        "2:1 ENUM\n2:1 LAYOUT\n3:1 UNSET\nassumptions 3\n",
        "in no line of a file stands the place 3:1",
    ),
];

// Texts of waits and of dead places over a text of two lines, and why an empty report has no log with them.
static UNLISTED: [(&str, &str, &str); 20] = [
    ("", NO_DEAD, "the text of the waits lists no places"),
    (NO_WAITS, "", "the text of the dead places lists no places"),
    (NO_DEAD, NO_DEAD, "the text of the waits lists no places"),
    (
        NO_WAITS,
        NO_WAITS,
        "the text of the dead places lists no places",
    ),
    (
        "waits 1\n",
        NO_DEAD,
        "the text of the waits lists no places",
    ),
    ("waits 0", NO_DEAD, "the text of the waits lists no places"),
    (
        "waits 00\n",
        NO_DEAD,
        "the text of the waits lists no places",
    ),
    (
        "waits 0\n\n",
        NO_DEAD,
        "the text of the waits lists no places",
    ),
    (
        "2:1 WAIT\n",
        NO_DEAD,
        "the text of the waits lists no places",
    ),
    (
        "2:1 WAIT\nwaits 2\n",
        NO_DEAD,
        "the text of the waits lists no places",
    ),
    (
        "2:1 DEAD\nwaits 1\n",
        NO_DEAD,
        "the text of the waits lists no places",
    ),
    (
        "02:1 WAIT\nwaits 1\n",
        NO_DEAD,
        "the text of the waits lists no places",
    ),
    (
        "+2:1 WAIT\nwaits 1\n",
        NO_DEAD,
        "the text of the waits lists no places",
    ),
    (
        "2:1  WAIT\nwaits 1\n",
        NO_DEAD,
        "the text of the waits lists no places",
    ),
    (
        "2 WAIT\nwaits 1\n",
        NO_DEAD,
        "the text of the waits lists no places",
    ),
    (
        "4294967296:1 WAIT\nwaits 1\n",
        NO_DEAD,
        "the text of the waits lists no places",
    ),
    (
        NO_WAITS,
        "1:5 x 0 9\n2:1 DEAD\ndead 1\n",
        "the text of the dead places lists no places",
    ),
    (
        "3:1 WAIT\nwaits 1\n",
        NO_DEAD,
        "in no line of a file stands the place 3:1",
    ),
    (
        NO_WAITS,
        "1:1 DEAD\n3:1 DEAD\ndead 2\n",
        "in no line of a file stands the place 3:1",
    ),
    (
        NO_WAITS,
        "0:1 DEAD\ndead 1\n",
        "in no line of a file stands the place 0:1",
    ),
];

// What the view of a report is, or why there is none.
fn shown(alloc: Global, form: Form, name: &str, report: &str, text: &str) -> Result<Vec<u8>, Fail> {
    match view(
        alloc,
        form,
        name.as_bytes(),
        report.as_bytes(),
        text.as_bytes(),
    ) {
        Ok(reply) => Ok(reply.text),
        Err(ViewFail::Refused(cause)) => {
            let line = cause_line(alloc, cause)?;
            Ok(Vec::from_slice(alloc, line.as_bytes())?)
        }
        Err(ViewFail::NoMemory) => Ok(Vec::new(alloc)),
    }
}

// The log of a report, of waits, of dead places, of assumptions and of ways, or why there is none, where these lines of
// the files are at hand.
fn logged(
    alloc: Global,
    report: &str,
    waits: &str,
    dead: &str,
    assumptions: &str,
    ways: &str,
    text: &str,
    lines: &str,
) -> Result<Vec<u8>, Fail> {
    let frame = Frame {
        documents: b"/a b/docs",
        folder: b"/\\143ode",
        name: b"a.c",
        text: text.as_bytes(),
        lines: lines.as_bytes(),
    };
    let answers = Answers {
        report: report.as_bytes(),
        waits: waits.as_bytes(),
        dead: dead.as_bytes(),
        assumptions: assumptions.as_bytes(),
        ways: ways.as_bytes(),
    };
    match log(alloc, frame, answers) {
        Ok(log) => Ok(log),
        Err(ViewFail::Refused(cause)) => {
            let line = cause_line(alloc, cause)?;
            Ok(Vec::from_slice(alloc, line.as_bytes())?)
        }
        Err(ViewFail::NoMemory) => Ok(Vec::new(alloc)),
    }
}

#[test]
fn lines(rt: HostRuntime) -> Result<(), Fail> {
    let alloc = rt.alloc();
    for (report, text, wanted) in LINES.iter() {
        let given = shown(alloc, Form::Lines, "a.c", report, text)?;
        let mut line = String::from_str(alloc, wanted)?;
        if !line.as_str().ends_with('\n') {
            line.push_str(DIV)?;
        }
        assert!(rt; given.as_slice() == line.as_bytes());
    }
    for (report, text, wanted) in REFUSED.iter() {
        let given = shown(alloc, Form::Summary, "a.c", report, text)?;
        let line = format!(in alloc; "refused: {wanted}\n")?;
        assert!(rt; given.as_slice() == line.as_bytes());
        let given = logged(
            alloc,
            report,
            NO_WAITS,
            NO_DEAD,
            NO_ASSUMPTIONS,
            "",
            text,
            "",
        )?;
        assert!(rt; given.as_slice() == line.as_bytes());
    }
    Ok(())
}

// A report with four alarms, its text, and the lines of the files, of which the last one is not at hand.
const MARKED: &str =
    "{\"alarms\":[{\"class\":\"RACE\",\"col\":1,\"line\":2},{\"class\":\"SHIFT\",\"col\":18,\"line\":4},\
    {\"class\":\"DIV\",\"col\":24,\"line\":4},{\"class\":\"DIV\",\"col\":26,\"line\":4}],\"count\":4}";

const TEXT: &str =
    "# 3 \"b \\\"c.h\" 1\ny = 2;\n# 2 \"/code/src/a.c\" 2\nvoid f(void) { x <<= 1 / y; }\nx\n\u{e4}x\n";

const FILE_LINES: &str = "\ny = 2; // note\n\nvoid\tf(void) { x <<= 1 / y; } // note\nPERCENT(x)\n";

// The log of that report, of what is told of it, of a wait, of two dead places and of an assumption, from its results on.
const RESULTS: &str =
    "\"results\":[{\"level\":\"warning\",\"locations\":[{\"logicalLocations\":[],\"physicalLocation\":{\"artifactLocat\
    ion\":{\"uri\":\"b%20%22c.h\"},\"region\":{\"endColumn\":2,\"startColumn\":1,\"startLine\":3}}}],\"message\":{\"t\
    ext\":\"another task may access this object at the same time, and one of the two stores\"},\"partialFingerprints\
    \":{\"cedratcleat/v1\":\"3ef5c450844cbb134b68b360c8575e21\"},\"relatedLocations\":[{\"message\":{\"text\":\"store \
    of y in f\"},\"physicalLocation\":{\"artifactLocation\":{\"uri\":\"/code/src/a.c\"},\"region\":{\"endColumn\":21\
    ,\"startColumn\":18,\"startLine\":2}}}],\"ruleId\":\"RACE\",\"ruleIndex\":7,\"stacks\":[]},{\"level\":\"warning\"\
    ,\"locations\":[{\"logicalLocations\":[{\"kind\":\"function\",\"name\":\"f\"}],\"physicalLocation\":{\"artifactLo\
    cation\":{\"uri\":\"/code/src/a.c\"},\"region\":{\"endColumn\":21,\"startColumn\":18,\"startLine\":2}}}],\"messag\
    e\":{\"text\":\"the shift may have a count or a left operand for which it is not defined\"},\"partialFingerprints\
    \":{\"cedratcleat/v1\":\"8f04045e264ccc6052f6836bca0619dd\"},\"relatedLocations\":[],\"ruleId\":\"SHIFT\",\"ruleI\
    ndex\":2,\"stacks\":[]},{\"level\":\"warning\",\"locations\":[{\"logicalLocations\":[{\"kind\":\"function\",\"nam\
    e\":\"f\"}],\"physicalLocation\":{\"artifactLocation\":{\"uri\":\"/code/src/a.c\"},\"region\":{\"endColumn\":25,\
    \"startColumn\":24,\"startLine\":2}}}],\"message\":{\"text\":\"the divisor may be zero\"},\"partialFingerprints\"\
    :{\"cedratcleat/v1\":\"af2658217f2bb362eb5dacb7f275d37c\"},\"relatedLocations\":[],\"ruleId\":\"DIV\",\"ruleIndex\
    \":1,\"stacks\":[{\"frames\":[{\"location\":{\"message\":{\"text\":\"in f\"},\"physicalLocation\":{\"artifactLoca\
    tion\":{\"uri\":\"/code/src/a.c\"},\"region\":{\"endColumn\":25,\"startColumn\":24,\"startLine\":2}}}},{\"locatio\
    n\":{\"message\":{\"text\":\"called \\\"here\\\"\"},\"physicalLocation\":{\"artifactLocation\":{\"uri\":\"/code/s\
    rc/a.c\"},\"region\":{\"startLine\":3}}}}],\"message\":{\"text\":\"in f\"}}]},{\"level\":\"warning\",\"locations\
    \":[{\"logicalLocations\":[{\"kind\":\"function\",\"name\":\"f\"}],\"physicalLocation\":{\"artifactLocation\":{\"\
    uri\":\"/code/src/a.c\"},\"region\":{\"endColumn\":27,\"startColumn\":26,\"startLine\":2}}}],\"message\":{\"text\
    \":\"the divisor may be zero\"},\"partialFingerprints\":{\"cedratcleat/v1\":\"90637b77078ed5e89744a37b5744bc9e\"}\
    ,\"relatedLocations\":[],\"ruleId\":\"DIV\",\"ruleIndex\":1,\"stacks\":[]},{\"level\":\"warning\",\"locations\":[\
    {\"logicalLocations\":[{\"kind\":\"function\",\"name\":\"f\"}],\"physicalLocation\":{\"artifactLocation\":{\"uri\
    \":\"/code/src/a.c\"},\"region\":{\"endColumn\":17,\"startColumn\":16,\"startLine\":2}}}],\"message\":{\"text\":\
    \"tasks may come to wait for each other for ever, one of them at this lock\"},\"partialFingerprints\":{\"cedratcl\
    eat/v1\":\"1b8d5d9ebf6e036df7e0f31934638461\"},\"relatedLocations\":[],\"ruleId\":\"WAIT\",\"ruleIndex\":8,\"stac\
    ks\":[]},{\"level\":\"note\",\"locations\":[{\"logicalLocations\":[],\"physicalLocation\":{\"artifactLocation\":{\
    \"uri\":\"/code/src/a.c\"},\"region\":{\"startLine\":3}}}],\"message\":{\"text\":\"no run reaches this\"},\"parti\
    alFingerprints\":{\"cedratcleat/v1\":\"b58256d7d392845a628aad7e75c26966\"},\"relatedLocations\":[],\"ruleId\":\"D\
    EAD\",\"ruleIndex\":9,\"stacks\":[]},{\"level\":\"note\",\"locations\":[{\"logicalLocations\":[],\"physicalLocati\
    on\":{\"artifactLocation\":{\"uri\":\"/code/src/a.c\"},\"region\":{\"startColumn\":2,\"startLine\":4}}}],\"messag\
    e\":{\"text\":\"no run reaches this\"},\"partialFingerprints\":{\"cedratcleat/v1\":\"7bcd52318438a5d2059c1508afb4\
    5538\"},\"relatedLocations\":[],\"ruleId\":\"DEAD\",\"ruleIndex\":9,\"stacks\":[]},{\"kind\":\"review\",\"level\"\
    :\"none\",\"locations\":[{\"logicalLocations\":[{\"kind\":\"function\",\"name\":\"f\"}],\"physicalLocation\":{\"a\
    rtifactLocation\":{\"uri\":\"/code/src/a.c\"},\"region\":{\"endColumn\":17,\"startColumn\":16,\"startLine\":2}}}]\
    ,\"message\":{\"text\":\"C leaves open in which order these operands are evaluated, and it matters\"},\"partialFi\
    ngerprints\":{\"cedratcleat/v1\":\"9a14c20187d253f6c375bc00e40ecfa0\"},\"relatedLocations\":[],\"ruleId\":\"ORDER\
    \",\"ruleIndex\":16,\"stacks\":[]}]";

#[test]
fn listings(rt: HostRuntime) -> Result<(), Fail> {
    let alloc = rt.alloc();
    for (waits, dead, wanted) in UNLISTED.iter() {
        let given = logged(alloc, EMPTY, waits, dead, NO_ASSUMPTIONS, "", "x\nx", "")?;
        let line = format!(in alloc; "refused: {wanted}\n")?;
        assert!(rt; given.as_slice() == line.as_bytes());
    }
    for (assumptions, wanted) in UNASSUMED.iter() {
        let given = logged(alloc, EMPTY, NO_WAITS, NO_DEAD, assumptions, "", "x\nx", "")?;
        let line = format!(in alloc; "refused: {wanted}\n")?;
        assert!(rt; given.as_slice() == line.as_bytes());
    }
    for (ways, wanted) in UNTOLD.iter() {
        let given = logged(
            alloc,
            RACE,
            NO_WAITS,
            NO_DEAD,
            NO_ASSUMPTIONS,
            ways,
            "x\nx",
            "",
        )?;
        let line = format!(in alloc; "refused: {wanted}\n")?;
        assert!(rt; given.as_slice() == line.as_bytes());
    }
    Ok(())
}

#[test]
fn forms(rt: HostRuntime) -> Result<(), Fail> {
    let alloc = rt.alloc();
    let log = logged(
        alloc,
        MARKED,
        "4:16 WAIT\nwaits 1\n",
        "5:1 DEAD\n6:3 DEAD\ndead 2\n",
        "4:16 ORDER\nassumptions 1\n",
        WAYS,
        TEXT,
        FILE_LINES,
    )?;
    let start =
        "{\"$schema\":\"https://json.schemastore.org/sarif-2.1.0.json\",\"runs\":[{\"artifacts\":[{\"location\":\
        {\"uri\":\"a.c\"}},{\"location\":{\"uri\":\"b%20%22c.h\"}},{\"location\":{\"uri\":\"/code/src/a.c\"}}],\
        \"columnKind\":\"utf16CodeUnits\",\"invocations\":[{\"executionSuccessful\":true,\"exitCode\":1,\
        \"toolExecutionNotifications\":[]}],";
    assert!(rt; log.as_slice().starts_with(start.as_bytes()));
    let behind = &log.as_slice()[start.len().min(log.len())..];
    assert!(rt; behind.starts_with(RESULTS.as_bytes()));
    let none = logged(alloc, EMPTY, NO_WAITS, NO_DEAD, NO_ASSUMPTIONS, "", "", "")?;
    let quiet =
        "{\"$schema\":\"https://json.schemastore.org/sarif-2.1.0.json\",\"runs\":[{\"artifacts\":[{\"location\":\
        {\"uri\":\"a.c\"}}],\"columnKind\":\"utf16CodeUnits\",\"invocations\":[{\"executionSuccessful\":true,\
        \"exitCode\":0,\"toolExecutionNotifications\":[]}],\"results\":[],";
    assert!(rt; none.as_slice().starts_with(quiet.as_bytes()));
    let counted = shown(
        alloc,
        Form::Summary,
        "a.c",
        TWO,
        "# 3 \"b.h\"\ny\n# 2 \"a.c\"\nx\nx\n",
    )?;
    let summary =
        "OVERFLOW 0\nDIV 1\nSHIFT 0\nINDEX 0\nPOINTER 0\nDEREF 0\nLOCK 0\nRACE 1\nalarms 2\n";
    assert!(rt; counted.as_slice() == summary.as_bytes());
    Ok(())
}
