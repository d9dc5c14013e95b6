//! Prints what can be given to each tool, a line a form of it, for the scripts that keep lists of words.
#![tactic(auto)]

use pd_answers::{Need, Value};
use pd_words::{IMAGE, NamedWord, TOOLS, ToolForm};
use std::io;

fn main(rt: HostRuntime) -> io::Result<()> {
    for row in &TOOLS {
        put_tool(&rt, row)?;
    }
    Ok(())
}

/// Puts the name of a tool and the words of a form of it. What may be left out stands in brackets.
fn put_tool(rt: &impl Print, row: &ToolForm) -> io::Result<()> {
    print!(rt; "{}", row.name)?;
    for word in row.words {
        print!(rt; " ")?;
        put_word(rt, word)?;
    }
    println!(rt; "")
}

/// Puts a word with what its value is.
fn put_word(rt: &impl Print, word: &NamedWord) -> io::Result<()> {
    if word.name == IMAGE.name {
        return print!(rt; "DEVICE");
    }
    match word.need {
        Need::Flag => print!(rt; "[{}]", word.name),
        Need::Mark => print!(rt; "{}", word.name),
        Need::Wanted(value) => print!(rt; "{} {}", word.name, shown(value)),
        Need::Optional(value) => print!(rt; "[{} {}]", word.name, shown(value)),
    }
}

/// What stands for a value.
fn shown(value: Value) -> &'static str {
    match value {
        Value::File => "FILE",
        Value::Device => "DEVICE",
        Value::Stage => "STAGE",
        Value::Version => "VERSION",
        Value::Region => "FIRST..END",
        Value::UpTo(_) => "NUMBER",
        Value::Generated => "NUMBER",
    }
}
