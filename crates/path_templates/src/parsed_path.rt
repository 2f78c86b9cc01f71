//! Paths, each with the template that it is.
ghost use Rattle.std.specs.Prelude.{◌≡◌, ◌↔◌, IfOk, IsTrue, option_map};
ghost use Rattle.path_templates.specs.Segments.{segments_of};
ghost use Rattle.path_templates.specs.Variables.{IsFilledBy};

use crate::template::Template;
use schema_values::{Text, VariableSet};
use std::alloc::{AllocError, Global};
use std::marker::Model;

/// A path as it was given, with the template that it is, if it is one. Contracts see its characters.
#[derive(Drop)]
pub struct ParsedPath {
    text: Text,
    template: Option<Template>,
}

impl Model for ParsedPath {
    ghost use Rattle.std.specs.Prelude.{◌≡◌, ℕ, List};
    ghost use Rattle.path_templates.specs.Segments.{segments_of};

    ghost Value = { List ℕ };

    ghost view = { λ path. path.text };

    ghost invariant = { λ path. path.template ≡ segments_of path.text };
}

impl ParsedPath {
    /// The path of a text. Fails only for want of memory.
    pub fn new(alloc: Global, text: Text) -> Result<ParsedPath, AllocError>
        ensures { IfOk result (λ path. path ≡ text) }
    {
        let template = Template::parse(alloc, &text)?;
        Ok(ParsedPath { text, template })
    }

    /// A path equal to this one.
    pub fn copy(&self, alloc: Global) -> Result<ParsedPath, AllocError>
        ensures { IfOk result (λ copy. copy ≡ self.now) }
    {
        let text = self.text.copy(alloc)?;
        let template = match &self.template {
            Some(template) => Some(template.copy(alloc)?),
            None => None,
        };
        Ok(ParsedPath { text, template })
    }

    /// The text that it was made of.
    pub fn text(&self) -> &Text
        ensures { result.now ≡ self.now }
    {
        &self.text
    }

    /// The template, if the path is one.
    pub fn template(&self) -> Option<&Template>
        ensures { option_map (λ template. template.now) result ≡ segments_of self.now }
    {
        self.template.as_ref()
    }

    /// Whether the path is a template, and the variables of a request are those of it. It takes no memory.
    pub fn variables_match(&self, variables: &VariableSet) -> bool
        ensures { IsTrue result ↔ IsFilledBy self.now variables.now.entries }
    {
        match &self.template {
            Some(template) => template.variables_match(variables),
            None => false,
        }
    }
}
