//! The lines that are told.

ghost use Rattle.std.specs.Prelude.{◌≡◌, ◌++◌, ◌∷◌, [], OnOk, string_bytes};
ghost use Rattle.farm_check.specs.Doubts.{with_line};

use dia_base::{Identity, NodeNo};
use farm_base::Site;
use std::alloc::{AllocError, Global};

/// The lines that are told.
#[derive(Drop)]
pub struct Lines {
    text: String,
}

impl Lines {
    pub fn new(alloc: Global) -> Self {
        Lines {
            text: String::new(alloc),
        }
    }

    /// One line more.
    pub fn push(&mut self, line: &str) -> Result<(), AllocError>
        ensures { OnOk result (string_bytes self.new.text ≡ with_line (string_bytes self.old.text) line.now) }
    {
        if !self.text.is_empty() {
            self.text.push_str("\n")?;
        }
        self.text.push_str(line)
    }

    /// Ends the last line.
    pub fn end(&mut self) -> Result<(), AllocError>
        ensures { OnOk result (string_bytes self.new.text ≡ string_bytes self.old.text ++ 10 ∷ []) }
    {
        self.text.push_str("\n")
    }

    pub fn as_bytes(&self) -> &[u8]
        ensures { result.now ≡ string_bytes self.now.text }
    {
        self.text.as_bytes()
    }

    /// The lines as one text.
    pub fn into_text(self) -> String {
        self.text
    }
}

/// The characters with these codes.
pub fn text_of(alloc: Global, octets: &[u8]) -> Result<String, AllocError> {
    octets.iter().map(|octet| char::from(*octet)).collect(alloc)
}

/// An identity as text.
pub fn identity_text(alloc: Global, identity: &Identity) -> Result<String, AllocError> {
    text_of(alloc, identity.as_slice())
}

/// The name of a node of the site, by its number.
pub fn node_name(alloc: Global, site: &Site, node: NodeNo) -> Result<String, AllocError> {
    match site.nodes.as_slice().get(node.0 as usize) {
        Some(found) => identity_text(alloc, &found.name),
        None => String::from_str(alloc, "nobody"),
    }
}

/// One word more, behind a comma where others stand before it.
pub fn push_listed(list: &mut String, word: &str) -> Result<(), AllocError> {
    if !list.is_empty() {
        list.push_str(", ")?;
    }
    list.push_str(word)
}

/// The names of these nodes, one behind the other.
pub fn node_names(alloc: Global, site: &Site, nodes: &[NodeNo]) -> Result<String, AllocError> {
    let mut names = String::new(alloc);
    for node in nodes {
        let name = node_name(alloc, site, *node)?;
        push_listed(&mut names, name.as_str())?;
    }
    Ok(names)
}
