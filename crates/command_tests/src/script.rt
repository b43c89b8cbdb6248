//! Scripts: files and commands as one has them in a terminal, with the answers that are wanted.
//!
//! A script is made of paragraphs, with an empty line between two, and a paragraph of lines:
//!
//! - `# ..` is a comment.
//! - `NAME: TEXT` is a file that has this text, and no newline at its end.
//! - `NAME:` is a file that has the lines behind this one, up to the end of the paragraph. Without any it is empty.
//! - `$ WORDS > NAME` is a command that has to be done. Its text becomes a file.
//! - `$ WORDS` is a command whose answer stands in the lines behind this one, up to the end of the paragraph: the status, which
//!   may be followed by how many tests ran (`Differs, 1 ran`), and the text.
//!
//! A file takes the place of an earlier one that has its name. `''` is the empty word, and `{1,2}` in a command stands for 1 and
//! for 2 in turn.
use crate::files::{Counter, Files, answer_counted};
use dejavu_cli::Status8;
use std::alloc::Global;
use std::process::Abort;
use std::test::Fail;
use std::thread::Threads;

/// The commands of a script have the answers that stand behind them.
pub fn script_agrees<R: Threads + Abort + Sync>(
    rt: &R,
    alloc: Global,
    script: &str,
) -> Result<(), Fail> {
    script_agrees_over(rt, alloc, &[], script)
}

/// The same of a script that begins with these files.
pub fn script_agrees_over<R: Threads + Abort + Sync>(
    rt: &R,
    alloc: Global,
    texts: &[(&str, &str)],
    script: &str,
) -> Result<(), Fail> {
    let mut files = Vec::new(alloc);
    for (name, text) in texts {
        keep(alloc, &mut files, name, text)?;
    }
    for paragraph in script.trim().split("\n\n") {
        paragraph_agrees(rt, alloc, &mut files, paragraph)?;
    }
    Ok(())
}

/// A paragraph's files are kept, and its commands carried out.
fn paragraph_agrees<R: Threads + Abort + Sync>(
    rt: &R,
    alloc: Global,
    files: &mut Files,
    paragraph: &str,
) -> Result<(), Fail> {
    let mut end: usize = 0;
    for line in paragraph.lines() {
        end = end.wrapping_add(line.len()).wrapping_add(1);
        let behind = paragraph.get(end..).unwrap_or("");
        if let Some(name) = line.strip_suffix(":") {
            return keep_lines(alloc, files, name, behind);
        }
        match line.strip_prefix("$ ") {
            None => keep_line(alloc, files, line)?,
            Some(command) => match command.split_once(" > ") {
                Some((words, name)) => keep_answer(rt, alloc, files, words, name)?,
                None => return answers_agree(rt, alloc, files, command, behind),
            },
        }
    }
    Ok(())
}

/// The files with this one, in the place of an earlier one that has its name.
fn keep(alloc: Global, files: &mut Files, name: &str, text: &str) -> Result<(), Fail> {
    files.retain(|(kept, _)| kept.as_str() != name);
    let content = text.as_bytes().to_vec(alloc)?;
    files.push((String::from_str(alloc, name)?, content))?;
    Ok(())
}

/// The file of a line, which may be a comment.
fn keep_line(alloc: Global, files: &mut Files, line: &str) -> Result<(), Fail> {
    if line.starts_with("# ") {
        return Ok(());
    }
    let (name, text) = line.split_once(": ").ok_or("neither a file nor a command")?;
    keep(alloc, files, name, text)
}

/// The file of these lines, which lack the newline behind the last one.
fn keep_lines(alloc: Global, files: &mut Files, name: &str, lines: &str) -> Result<(), Fail> {
    if lines.is_empty() {
        return keep(alloc, files, name, "");
    }
    let text = format!(in alloc; "{lines}\n")?;
    keep(alloc, files, name, text.as_str())
}

/// The file of a command's text.
fn keep_answer<R: Threads + Abort + Sync>(
    rt: &R,
    alloc: Global,
    files: &mut Files,
    words: &str,
    name: &str,
) -> Result<(), Fail> {
    let text = match answer_counted(rt, alloc, files, words, &Counter::new())? {
        (Status8::Done, text) => text,
        _ => return Err("a command isn't done".into()),
    };
    keep(alloc, files, name, text.as_str())
}

/// A command has the answer, for each part of its braces.
fn answers_agree<R: Threads + Abort + Sync>(
    rt: &R,
    alloc: Global,
    files: &Files,
    command: &str,
    expected: &str,
) -> Result<(), Fail> {
    let Some((before, braces)) = command.split_once('{') else {
        return answer_agrees(rt, alloc, files, command, expected);
    };
    let (parts, behind) = braces.split_once('}').ok_or("no second brace")?;
    for part in parts.split(',') {
        let words = format!(in alloc; "{before}{part}{behind}")?;
        answer_agrees(rt, alloc, files, words.as_str(), expected)?;
    }
    Ok(())
}

/// These words have the answer.
pub fn answer_agrees<R: Threads + Abort + Sync>(
    rt: &R,
    alloc: Global,
    files: &Files,
    words: &str,
    expected: &str,
) -> Result<(), Fail> {
    let gate = Counter::new();
    let (status, text) = answer_counted(rt, alloc, files, words, &gate)?;
    let ran = gate.count();
    let told = format!(in alloc; "{status:?}\n{text}")?;
    let counted = format!(in alloc; "{status:?}, {ran} ran\n{text}")?;
    let wanted = format!(in alloc; "{expected}\n")?;
    assert!(rt;
        wanted == told || wanted == counted,
        "{words} gave {counted}"
    );
    Ok(())
}
