//! Words, and the command that they are.

use cmd_words::{Command, read_words};
use std::alloc::Global;
use std::process::Abort;
use std::test::Fail;

// Words with a comma between each and the next, and the command in one line.
static WORDS: [(&str, &str); 82] = [
    // No command.
    ("", "usage"),
    (",analyse", "usage"),
    ("ANALYSE", "usage"),
    ("analyse ", "usage"),
    ("analys", "usage"),
    ("--json,analyse", "usage"),
    ("Certify", "usage"),
    ("checks", "usage"),
    ("--help", "usage"),
    ("--version", "usage"),
    ("--", "usage"),
    // The command `analyse`.
    ("analyse", "analyse 1"),
    ("analyse,--json", "analyse 1 json"),
    ("analyse,--history,--json", "analyse 1 json history"),
    ("analyse,--workers,4", "analyse 4"),
    ("analyse,--workers=16", "analyse 16"),
    ("analyse,--workers=0004", "analyse 4"),
    ("analyse,17", "analyse 1 17"),
    ("analyse,0000000017", "analyse 1 17"),
    ("analyse,2147483647,0,0", "analyse 1 2147483647 0 0"),
    (
        "analyse,8,--json,3,--workers,2,--history,8",
        "analyse 2 json history 8 3 8",
    ),
    ("analyse,--", "analyse 1"),
    ("analyse,--,17", "analyse 1 17"),
    ("analyse,17,--", "analyse 1 17"),
    ("analyse,17,--,18", "analyse 1 17 18"),
    ("analyse,--json,--,17", "analyse 1 json 17"),
    // Further words that `analyse` does not take.
    ("analyse,analyse", "usage"),
    ("analyse,", "usage"),
    ("analyse,-", "usage"),
    ("analyse,-5", "usage"),
    ("analyse,+1", "usage"),
    ("analyse,1 ", "usage"),
    ("analyse,0x10", "usage"),
    ("analyse,00000000017", "usage"),
    ("analyse,2147483648", "usage"),
    ("analyse,4294967297", "usage"),
    ("analyse,9999999999", "usage"),
    ("analyse,--json,--json", "usage"),
    ("analyse,--history,--history", "usage"),
    ("analyse,--json=", "usage"),
    ("analyse,--json=1", "usage"),
    ("analyse,--JSON", "usage"),
    ("analyse,--js", "usage"),
    ("analyse,-json", "usage"),
    ("analyse,--help", "usage"),
    ("analyse,--version", "usage"),
    ("analyse,--workers", "usage"),
    ("analyse,--workers=", "usage"),
    ("analyse,--workers,", "usage"),
    ("analyse,--workers,0", "usage"),
    ("analyse,--workers=0", "usage"),
    ("analyse,--workers,17", "usage"),
    ("analyse,--workers=+4", "usage"),
    ("analyse,--workers,4,--workers,4", "usage"),
    ("analyse,--workers=4,--workers,4", "usage"),
    ("analyse,--workers,--json", "usage"),
    ("analyse,--workers,--", "usage"),
    ("analyse,--workers,--,4", "usage"),
    ("analyse,--workers,--workers=4", "usage"),
    ("analyse,--,--", "usage"),
    ("analyse,--,--json", "usage"),
    ("analyse,--,17,--", "usage"),
    ("analyse,\u{661}", "usage"),
    // The other commands.
    ("replay", "replay"),
    ("replay,--", "usage"),
    ("replay,1", "usage"),
    ("generate,400", "generate 400"),
    ("demo,5", "demo 1 5"),
    ("waits", "waits"),
    ("waits,--", "usage"),
    ("waits,--json", "usage"),
    ("ranges", "ranges"),
    ("ranges,17", "usage"),
    ("certify", "certify"),
    ("certify,--", "usage"),
    ("certify,--json", "usage"),
    ("certify,17", "usage"),
    ("certify,", "usage"),
    ("check", "check"),
    ("check,--", "usage"),
    ("check,check", "usage"),
    ("check,", "usage"),
];

// The commands with a number.
static NUMBERS: [(&str, &str); 27] = [
    ("generate", "usage"),
    ("generate,--", "usage"),
    ("generate,0", "usage"),
    ("generate,1", "generate 1"),
    ("generate,007", "generate 7"),
    ("generate,401", "usage"),
    ("generate,1,2", "usage"),
    ("generate,--,3", "generate 3"),
    ("generate,3,--", "generate 3"),
    ("generate,3,--,4", "usage"),
    ("generate,--workers,4", "usage"),
    ("generate,--workers,4,3", "usage"),
    ("generate,--json,3", "usage"),
    ("generate,--json", "usage"),
    ("demo", "usage"),
    ("demo,0", "usage"),
    ("demo,401", "usage"),
    ("demo,400,--workers=8", "demo 8 400"),
    ("demo,--workers,4,1", "demo 4 1"),
    ("demo,--,3", "demo 1 3"),
    ("demo,--workers,2,--,3", "demo 2 3"),
    ("demo,5,--", "demo 1 5"),
    ("demo,5,6", "usage"),
    ("demo,--workers,17,5", "usage"),
    ("demo,--workers,4", "usage"),
    ("demo,--json,5", "usage"),
    ("demo,5,--history", "usage"),
];

fn words_of(alloc: Global, row: &str) -> Result<Vec<String>, Fail> {
    let mut words = Vec::new(alloc);
    if row.is_empty() {
        return Ok(words);
    }
    for word in row.split(',') {
        words.push(String::from_str(alloc, word)?)?;
    }
    Ok(words)
}

fn line_of(alloc: Global, command: Option<Command>) -> Result<String, Fail> {
    match command {
        Some(Command::Analyse(asked)) => {
            let workers = asked.workers;
            let mut line = format!(in alloc; "analyse {workers}")?;
            if asked.json {
                line.push_str(" json")?;
            }
            if asked.history {
                line.push_str(" history")?;
            }
            for number in asked.thresholds.as_slice() {
                write!(line, " {number}")?;
            }
            Ok(line)
        }
        Some(Command::Replay) => Ok(String::from_str(alloc, "replay")?),
        Some(Command::Generate(count)) => Ok(format!(in alloc; "generate {count}")?),
        Some(Command::Demo(asked)) => {
            let workers = asked.workers;
            let count = asked.count;
            Ok(format!(in alloc; "demo {workers} {count}")?)
        }
        Some(Command::Waits) => Ok(String::from_str(alloc, "waits")?),
        Some(Command::Ranges) => Ok(String::from_str(alloc, "ranges")?),
        Some(Command::Certify) => Ok(String::from_str(alloc, "certify")?),
        Some(Command::Check) => Ok(String::from_str(alloc, "check")?),
        None => Ok(String::from_str(alloc, "usage")?),
    }
}

fn is_command(rt: &impl Abort, alloc: Global, row: &str, line: &str) -> Result<(), Fail> {
    let words = words_of(alloc, row)?;
    let command = read_words(alloc, &words)?;
    let given = line_of(alloc, command)?;
    assert_eq!(rt; given.as_str(), line, "of {row}");
    Ok(())
}

#[test]
fn words(rt: HostRuntime) -> Result<(), Fail> {
    let alloc = rt.alloc();
    for (row, line) in WORDS.iter() {
        is_command(&rt, alloc, *row, *line)?;
    }
    for (row, line) in NUMBERS.iter() {
        is_command(&rt, alloc, *row, *line)?;
    }
    Ok(())
}
