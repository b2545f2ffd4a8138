//! A case: what a run is given, and what has to come of it.

use crate::mistake::Mistake;
use crate::section::Section;
use crate::terms::text_of;
use crate::texts::{Named, find};
use crate::token::{Token, as_text, number, tokens};
use std::alloc::Global;
use std::rt::Files;

/// What a run is given, and what has to come of it.
#[derive(Drop)]
pub struct Case {
    /// Whether there is a command line.
    pub has_command: bool,
    /// The words behind the program's name.
    pub words: Vec<String>,
    /// The files on the shelf.
    pub files: Vec<Named>,
    /// The input.
    pub input: Vec<u8>,
    /// How the outside behaves.
    pub devices: Devices,
    /// What has to come of the run.
    pub wanted: Wanted,
}

/// How the outside of a run behaves. Calls are counted from 1.
#[derive(Drop)]
pub struct Devices {
    /// At most so many bytes go through a stream in one call.
    pub piece: usize,
    /// After each so many lines the input waits until they are answered; where it is absent it waits for nothing.
    pub dialogue: Option<u64>,
    /// The loads that fail.
    pub loads: Vec<u64>,
    /// The stores that fail.
    pub stores: Vec<u64>,
    /// The reads of the input that fail.
    pub reads: Vec<u64>,
    /// The writes on out that fail.
    pub writes: Vec<u64>,
    /// The writes on err that fail.
    pub messages: Vec<u64>,
}

/// What has to come of a run.
#[derive(Drop)]
pub struct Wanted {
    /// The exit status.
    pub exit: u8,
    /// The kind of a fault of the command line.
    pub kind: Option<Vec<u8>>,
    /// What is written on out.
    pub out: Vec<u8>,
    /// What is written on err.
    pub err: Option<Vec<u8>>,
    /// The files that are stored.
    pub stored: Vec<Named>,
    /// The names of files that are stored, whatever their text is.
    pub left: Vec<String>,
    /// How many workers come to the gate.
    pub workers: Option<usize>,
    /// How many of them come to it in a later pass than the first.
    pub later: Option<usize>,
}

impl Case {
    /// A case without a command line, in which nothing is given and nothing fails.
    pub fn new(alloc: Global) -> Case {
        Case {
            has_command: false,
            words: Vec::new(alloc),
            files: Vec::new(alloc),
            input: Vec::new(alloc),
            devices: Devices {
                piece: 65_536,
                dialogue: None,
                loads: Vec::new(alloc),
                stores: Vec::new(alloc),
                reads: Vec::new(alloc),
                writes: Vec::new(alloc),
                messages: Vec::new(alloc),
            },
            wanted: Wanted {
                exit: 0,
                kind: None,
                out: Vec::new(alloc),
                err: None,
                stored: Vec::new(alloc),
                left: Vec::new(alloc),
                workers: None,
                later: None,
            },
        }
    }

    /// Adds what a section says.
    pub fn add<R: Files + AllocGlobal>(
        &mut self,
        rt: &R,
        section: &Section,
        texts: &[Named],
    ) -> Result<(), Mistake> {
        match section.keyword.as_str() {
            "each" => Ok(()),
            "kb" | "pieces" | "dialogue" | "status" | "workers" | "leaves" | "fails" => {
                self.add_line(rt, section, texts)
            }
            "file" | "stored" => self.add_file(rt, section, texts),
            "input" | "out" | "err" => self.add_text(rt, section, texts),
            _ => Err(Mistake::Keyword),
        }
    }

    /// Adds what a section of one line says.
    fn add_line<R: Files + AllocGlobal>(
        &mut self,
        rt: &R,
        section: &Section,
        texts: &[Named],
    ) -> Result<(), Mistake> {
        let tokens = line_of(rt, section, texts)?;
        match section.keyword.as_str() {
            "kb" => {
                self.has_command = true;
                self.words = words(rt.alloc(), &tokens)?;
                Ok(())
            }
            "status" => self.wanted.set_status(rt.alloc(), &tokens),
            "leaves" => {
                self.wanted.left = words(rt.alloc(), &tokens)?;
                Ok(())
            }
            "workers" => self.wanted.set_workers(&tokens),
            "pieces" => {
                self.devices.piece = one_number(&tokens)?;
                Ok(())
            }
            "dialogue" => self.devices.set_dialogue(&tokens),
            _ => self.devices.add(rt.alloc(), section.argument.as_str()),
        }
    }

    /// Adds a file that is there, or one that has to be stored.
    fn add_file<R: Files + AllocGlobal>(
        &mut self,
        rt: &R,
        section: &Section,
        texts: &[Named],
    ) -> Result<(), Mistake> {
        let file = named(rt, section, texts)?;
        if section.keyword.as_str() == "file" {
            self.files.push(file)?;
        } else {
            self.wanted.stored.push(file)?;
        }
        Ok(())
    }

    /// Adds the text of a stream.
    fn add_text<R: Files + AllocGlobal>(
        &mut self,
        rt: &R,
        section: &Section,
        texts: &[Named],
    ) -> Result<(), Mistake> {
        let text = text_of(rt, section, texts)?;
        match section.keyword.as_str() {
            "input" => self.input = text,
            "out" => self.wanted.out = text,
            _ => self.wanted.err = Some(text),
        }
        Ok(())
    }
}

/// The tokens of a section that is one line.
fn line_of<R: Files + AllocGlobal>(
    rt: &R,
    section: &Section,
    texts: &[Named],
) -> Result<Vec<Token>, Mistake> {
    if section.terms.is_some() {
        let line = text_of(rt, section, texts)?;
        return tokens(rt.alloc(), as_text(line.as_slice())?);
    }
    tokens(rt.alloc(), section.argument.as_str())
}

/// The words of a command line, or the names on a line.
fn words(alloc: Global, tokens: &[Token]) -> Result<Vec<String>, Mistake> {
    let mut words = Vec::new(alloc);
    for token in tokens {
        words.push(String::from_str(alloc, token.text()?)?)?;
    }
    Ok(words)
}

/// The text of a section under the name that it has. Without one it is the text of that name.
fn named<R: Files + AllocGlobal>(
    rt: &R,
    section: &Section,
    texts: &[Named],
) -> Result<Named, Mistake> {
    let name = section.argument.as_str();
    if name.is_empty() {
        return Err(Mistake::NoName);
    }
    let bytes = if section.has_text() {
        text_of(rt, section, texts)?
    } else {
        let text = find(texts, name).ok_or(Mistake::UnknownText)?;
        Vec::from_slice(rt.alloc(), text)?
    };
    Ok(Named::new(rt.alloc(), name, bytes)?)
}

/// The number that is alone on a line.
fn one_number(tokens: &[Token]) -> Result<usize, Mistake> {
    match tokens {
        [token] => number(token.text()?),
        _ => Err(Mistake::Number),
    }
}

/// The number of workers that the word is, 1 to 64.
fn crew(token: &Token) -> Result<usize, Mistake> {
    let workers = number(token.text()?)?;
    if workers < 1 || workers > 64 {
        return Err(Mistake::Number);
    }
    Ok(workers)
}

impl Devices {
    /// Takes after how many lines the input waits for their answers: after each one, where no number is told.
    fn set_dialogue(&mut self, tokens: &[Token]) -> Result<(), Mistake> {
        let lines = match tokens {
            [] => 1,
            [lines] => number::<u64>(lines.text()?)?,
            _ => return Err(Mistake::Number),
        };
        if lines < 1 {
            return Err(Mistake::Number);
        }
        self.dialogue = Some(lines);
        Ok(())
    }

    /// Adds what is told of failing calls: what is called, and the numbers of the calls that fail.
    fn add(&mut self, alloc: Global, line: &str) -> Result<(), Mistake> {
        let (call, rest) = line.split_once(' ').ok_or(Mistake::Number)?;
        let mut numbers = Vec::new(alloc);
        for word in rest.split(' ') {
            numbers.push(number::<u64>(word)?)?;
        }
        match call {
            "load" => self.loads = numbers,
            "store" => self.stores = numbers,
            "read" => self.reads = numbers,
            "write" => self.writes = numbers,
            "message" => self.messages = numbers,
            _ => return Err(Mistake::Keyword),
        }
        Ok(())
    }
}

impl Wanted {
    /// Takes the exit status, and behind it the kind of a fault of the command line.
    fn set_status(&mut self, alloc: Global, tokens: &[Token]) -> Result<(), Mistake> {
        let (exit, kind) = match tokens {
            [exit] => (exit, None),
            [exit, kind] => (exit, Some(Vec::from_slice(alloc, kind.bytes.as_slice())?)),
            _ => return Err(Mistake::Number),
        };
        self.exit = number::<u8>(exit.text()?)?;
        self.kind = kind;
        Ok(())
    }

    /// Takes how many workers come to the gate, and behind it how many of them in a later pass.
    fn set_workers(&mut self, tokens: &[Token]) -> Result<(), Mistake> {
        if self.workers.is_some() {
            return Err(Mistake::Twice);
        }
        let (workers, later) = match tokens {
            [workers] => (workers, None),
            [workers, later] => (workers, Some(crew(later)?)),
            _ => return Err(Mistake::Number),
        };
        self.workers = Some(crew(workers)?);
        self.later = later;
        Ok(())
    }
}
