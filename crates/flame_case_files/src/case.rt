//! Files of cases: a case is a name and titled sections of bytes; `----` stands between two cases.

use std::alloc::{AllocError, Global};
use std::str;

/// A section: its title, and its bytes.
#[derive(Drop)]
pub struct Section {
    /// The title.
    pub title: String,
    /// The bytes.
    pub bytes: Vec<u8>,
}

/// A case.
#[derive(Drop)]
pub struct Case {
    /// Its name.
    pub name: String,
    /// Its sections in order.
    pub sections: Vec<Section>,
}

impl Case {
    fn new(alloc: Global) -> Case {
        Case {
            name: String::new(alloc),
            sections: Vec::new(alloc),
        }
    }

    /// The bytes of the first section of this title; none where the case has no such section.
    pub fn bytes(&self, title: &str) -> &[u8] {
        for section in &self.sections {
            if section.title.as_str() == title {
                return section.bytes.as_slice();
            }
        }
        &[]
    }

    /// Whether it has a name, and says what is wanted.
    pub fn is_whole(&self) -> bool {
        let wants = self
            .sections
            .iter()
            .any(|section| section.title.as_str() == "wants");
        wants && !self.name.is_empty()
    }

    /// The text of the first section of this title; empty where there is none, or where it is no UTF-8.
    pub fn text(&self, title: &str) -> &str {
        str::from_utf8(self.bytes(title)).unwrap_or("")
    }

    /// What stands behind the first word of this name that begins a line of the section `given`.
    pub fn given(&self, name: &str) -> &str {
        for line in self.text("given").split('\n') {
            if let Some(rest) = line.strip_prefix(name) {
                return rest.trim();
            }
        }
        ""
    }

    /// The lines of the first section of this title.
    pub fn lines(&self, alloc: Global, title: &str) -> Result<Vec<String>, AllocError> {
        let mut lines = Vec::new(alloc);
        if let Some(text) = self.text(title).strip_suffix("\n") {
            for line in text.split('\n') {
                lines.push(String::from_str(alloc, line)?)?;
            }
        }
        Ok(lines)
    }

    /// Goes on with a line of the file. What follows `|` is a line of the section, what follows `>` its last one
    /// without a line feed; what follows `%` are bytes, as pairs of hexadecimal digits. An empty line is passed over,
    /// and another line is the title of a section.
    fn read(&mut self, alloc: Global, line: &str) -> Result<(), AllocError> {
        if let Some(name) = line.strip_prefix("case ") {
            self.name.push_str(name)?;
        } else if let Some(rest) = line.strip_prefix("|") {
            self.add(rest.as_bytes(), b"\n".as_slice())?;
        } else if let Some(rest) = line.strip_prefix(">") {
            self.add(rest.as_bytes(), &[])?;
        } else if let Some(rest) = line.strip_prefix("%") {
            for pair in rest.split(' ') {
                if let Ok(byte) = u8::from_str_radix(pair, 16) {
                    self.add(&[byte], &[])?;
                }
            }
        } else if !line.is_empty() {
            let title = String::from_str(alloc, line)?;
            let bytes = Vec::new(alloc);
            self.sections.push(Section { title, bytes })?;
        }
        Ok(())
    }

    fn add(&mut self, bytes: &[u8], end: &[u8]) -> Result<(), AllocError> {
        if let Some(section) = self.sections.last_mut() {
            section.bytes.extend_from_slice(bytes)?;
            section.bytes.extend_from_slice(end)?;
        }
        Ok(())
    }
}

/// The cases of a file in order.
pub fn read_cases(alloc: Global, text: &str) -> Result<Vec<Case>, AllocError> {
    let mut cases = Vec::new(alloc);
    let mut case = Case::new(alloc);
    for line in text.split('\n') {
        if line == "----" {
            cases.push(case)?;
            case = Case::new(alloc);
        } else {
            case.read(alloc, line)?;
        }
    }
    cases.push(case)?;
    Ok(cases)
}
