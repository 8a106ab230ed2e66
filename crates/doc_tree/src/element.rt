//! Elements.

ghost use Rattle.std.specs.Prelude.{◌≡◌, IfOk, map, option_map, option_copied};
ghost use Rattle.std.specs.String.{string_bytes};

use std::alloc::{AllocError, Global};
use std::marker::Model;

/// An element of a document, as readers see it (DOM, "Interface Element").
#[derive(Drop)]
pub struct Element {
    number: u32,
    parent: Option<u32>,
    tag: String,
    id: Option<String>,
    classes: Vec<String>,
    style: String,
}

impl Model for Element {
    ghost use Rattle.std.specs.Prelude.{map, option_map};
    ghost use Rattle.std.specs.String.{string_bytes};
    ghost use Rattle.doc_tree.specs.Element.{Element as Seen};

    ghost Value = { Seen };

    ghost view = { λ e. record { number = e.number; parent = e.parent; tag = string_bytes e.tag; id = option_map string_bytes e.id; classes = map string_bytes e.classes.items; style = string_bytes e.style } };
}

impl Element {
    ghost use Rattle.std.specs.Prelude.{◌≡◌, IfOk, map, option_map, option_copied};
    ghost use Rattle.std.specs.String.{string_bytes};
    ghost use Rattle.doc_tree.specs.Change.{new_element};

    /// An element with no id, no class and an empty style text.
    pub(crate) fn new(
        alloc: Global,
        number: u32,
        parent: Option<u32>,
        tag: &str,
    ) -> Result<Element, AllocError>
        ensures { IfOk result (λ e. e ≡ new_element number parent tag.now) }
    {
        Ok(Element {
            number,
            parent,
            tag: String::from_str(alloc, tag)?,
            id: None,
            classes: Vec::new(alloc),
            style: String::new(alloc),
        })
    }

    /// Its number.
    pub fn number(&self) -> u32
        ensures { result ≡ self.now.number }
    {
        self.number
    }

    /// The number of its parent; `None` for the root.
    pub fn parent(&self) -> Option<u32>
        ensures { result ≡ self.now.parent }
    {
        self.parent
    }

    /// Its tag.
    pub fn tag(&self) -> &str
        ensures { result.now ≡ self.now.tag }
    {
        self.tag.as_str()
    }

    /// Its id, if it has one.
    pub fn id(&self) -> Option<&str>
        ensures { option_map (λ text. text.now) result ≡ self.now.id }
    {
        match &self.id {
            None => None,
            Some(id) => Some(id.as_str()),
        }
    }

    /// Its classes: at most [`MAX_CLASSES`](crate::MAX_CLASSES), each once.
    pub fn classes(&self) -> &[String]
        ensures { map string_bytes result.now ≡ self.now.classes }
    {
        self.classes.as_slice()
    }

    /// Its style text, of at most [`MAX_STYLE_BYTES`](crate::MAX_STYLE_BYTES) bytes.
    pub fn style(&self) -> &str
        ensures { result.now ≡ self.now.style }
    {
        self.style.as_str()
    }

    /// Gives it this style text.
    pub(crate) fn set_style(&mut self, text: String)
        ensures { self.new ≡ record self.old { style = string_bytes text } }
    {
        self.style = text;
    }

    /// Gives it this id, or none.
    pub(crate) fn set_id(&mut self, id: Option<String>)
        ensures { self.new ≡ record self.old { id = option_map string_bytes id } }
    {
        self.id = id;
    }

    /// Gives it these classes.
    pub(crate) fn set_classes(&mut self, names: Vec<String>)
        ensures { self.new ≡ record self.old { classes = map string_bytes names.items } }
    {
        self.classes = names;
    }
}
