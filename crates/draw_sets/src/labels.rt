//! Ways as the lines of labels.
use crate::nodes::Gone;
use draw_text::{Kind, Part, push_bytes, push_escaped};
use std::alloc::{AllocError, Global};

/// The number of characters after which a line is broken.
const MOST_CHARACTERS: usize = 34;

/// The style of a word.
#[derive(Clone, Copy)]
pub(crate) enum Look {
    /// The stimuli of an INPUT.
    Input,
    /// The stimuli of an INPUT whose transition has no effect.
    Quiet,
    /// A question with an answer.
    Guard,
    /// A TASK, a SET or a RESET.
    Task,
    /// An OUTPUT.
    Output,
    /// A SAVE.
    Save,
}

/// The markup before a word.
fn opening(look: Look) -> &'static [u8] {
    match look {
        Look::Input => b"<b>",
        Look::Quiet => b"<font color=\"#888888\"><b>",
        Look::Guard => b"<font color=\"#7a3d00\">",
        Look::Task => b"<font color=\"#444444\">",
        Look::Output => b"<font color=\"#1a4fa0\">",
        Look::Save => b"<i>",
    }
}

/// The markup after a word.
fn closing(look: Look) -> &'static [u8] {
    match look {
        Look::Input => b"</b>",
        Look::Quiet => b"</b></font>",
        Look::Guard | Look::Task | Look::Output => b"</font>",
        Look::Save => b"</i>",
    }
}

/// A label as far as it is written.
#[derive(Drop)]
pub(crate) struct Label {
    text: Vec<u8>,
    /// The number of characters on the current line.
    used: usize,
}

impl Label {
    /// An empty label.
    pub(crate) fn new(alloc: Global) -> Label {
        Label {
            text: Vec::new(alloc),
            used: 0,
        }
    }

    /// The text written so far.
    pub(crate) fn as_bytes(&self) -> &[u8] {
        &self.text
    }

    /// Whether nothing is written yet.
    pub(crate) fn is_empty(&self) -> bool {
        self.text.len() == 0
    }

    /// Ends the line.
    pub(crate) fn end_line(&mut self) -> Result<(), AllocError> {
        self.used = 0;
        push_bytes(&mut self.text, b"<br align=\"left\"/>")
    }

    /// Makes room for a word, on the next line if this one has none.
    fn make_room(&mut self, count: usize) -> Result<(), AllocError> {
        if self.used == 0 {
            return Ok(());
        }
        if self.used.saturating_add(count) > MOST_CHARACTERS {
            self.end_line()?;
        }
        self.used = self.used.saturating_add(2);
        push_bytes(&mut self.text, b"&#160;&#160;")
    }

    /// Appends a word.
    fn word(&mut self, look: Look, word: &[u8]) -> Result<(), AllocError> {
        if word.len() == 0 {
            return Ok(());
        }
        self.make_room(word.len())?;
        self.used = self.used.saturating_add(word.len());
        push_bytes(&mut self.text, opening(look))?;
        push_escaped(&mut self.text, word)?;
        push_bytes(&mut self.text, closing(look))
    }

    /// Appends the lines of a text, each as a word.
    fn words(&mut self, look: Look, lines: &[u8]) -> Result<(), AllocError> {
        let mut from: usize = 0;
        for (index, byte) in lines.iter().enumerate() {
            if *byte == b'\n' {
                if let Some(word) = lines.get(from..index) {
                    self.word(look, word)?;
                }
                from = index.saturating_add(1);
            }
        }
        if let Some(word) = lines.get(from..) {
            self.word(look, word)?;
        }
        Ok(())
    }
}

/// The values of an answer, without its parentheses.
fn bare_answer(answer: &[u8]) -> &[u8] {
    if answer.len() > 2 && answer[0] == b'(' {
        &answer[1..answer.len() - 1]
    } else {
        answer
    }
}

/// `[QUESTION: ANSWER]`.
fn guard(alloc: Global, question: &[u8], answer: &[u8]) -> Result<Vec<u8>, AllocError> {
    let mut text = Vec::from_slice(alloc, b"[")?;
    push_bytes(&mut text, question)?;
    push_bytes(&mut text, b": ")?;
    push_bytes(&mut text, bare_answer(answer))?;
    push_bytes(&mut text, b"]")?;
    Ok(text)
}

/// A text joined to one line.
fn in_one_line(alloc: Global, lines: &[u8]) -> Result<Vec<u8>, AllocError> {
    let mut text = Vec::new(alloc);
    for byte in lines {
        text.push(if *byte == b'\n' { b' ' } else { *byte })?;
    }
    Ok(text)
}

/// Appends a symbol of a way to `label`; `question` is the last question before it.
fn push_symbol(
    alloc: Global,
    label: &mut Label,
    part: &Part,
    question: &[u8],
    input: Look,
) -> Result<(), AllocError> {
    match part.kind {
        Kind::Input => {
            let line = in_one_line(alloc, &part.text)?;
            label.word(input, &line)
        }
        Kind::Save => {
            let line = in_one_line(alloc, &part.text)?;
            label.words(Look::Save, b"save")?;
            label.word(Look::Save, &line)
        }
        Kind::Answer => {
            let text = guard(alloc, question, &part.text)?;
            label.word(Look::Guard, &text)
        }
        Kind::Task => label.words(Look::Task, &part.text),
        Kind::Output => {
            let line = in_one_line(alloc, &part.text)?;
            label.word(Look::Output, &line)
        }
        _ => Ok(()),
    }
}

/// Appends a way to `label` as a line.
pub(crate) fn push_way(
    alloc: Global,
    label: &mut Label,
    gone: &Gone<'_>,
    input: Look,
) -> Result<(), AllocError> {
    let mut question: &[u8] = b"";
    for index in &gone.way.symbols {
        if let Some(part) = gone.parts.get(*index) {
            if part.kind == Kind::Question {
                question = &part.text;
            }
            push_symbol(alloc, label, part, question, input)?;
        }
    }
    if gone.way.is_short {
        label.word(Look::Task, b"..")?;
    }
    label.end_line()
}
