//! What is known of the observation domains of a stream.

ghost use Rattle.std.specs.Prelude.{◌≡◌, ◌<◌, [], OnOk, option_map};
ghost use Rattle.std.specs.Option.{ForSome};
ghost use Rattle.std.proofs.Props.{props};
ghost use Rattle.ipfix_model.specs.Fields.{least_length};
ghost use Rattle.ipfix_reader.specs.FlowTemplates.{flow_template_fields};

use crate::flow_template::FlowTemplate;
use indexmap::IndexMap;
use ipfix_model::Template;
use std::alloc::{AllocError, Global};
use std::marker::Model;

/// A template that is known, and which template of flows has its fields, where one has. Each record of it takes a byte
/// or more.
#[derive(Drop)]
pub struct Known {
    pub template: Template,
    pub flow: Option<FlowTemplate>,
    pub ghost takes_bytes: { 0 < least_length template.fields },
    pub ghost of_flows: { ForSome flow (λ one. template.fields ≡ flow_template_fields one) } by { Prim.hlevel props },
}

/// The known templates, by observation domain and number.
#[derive(Drop)]
pub struct TemplateTable {
    known: IndexMap<(u32, u16), Known>,
}

impl Model for TemplateTable {
    ghost use Rattle.ipfix_reader.specs.Known.{Templates};

    ghost Value = { Templates };

    ghost use Rattle.ipfix_reader.specs.Tables.{templates_shown};

    ghost view = { λ table. templates_shown table.known.entries };
}

impl TemplateTable {
    ghost use Rattle.ipfix_reader.specs.Known.{fields_in, with_template};

    /// Nothing is known.
    pub fn new(alloc: Global) -> Self
        ensures { result ≡ [] }
    {
        TemplateTable {
            known: IndexMap::new(alloc),
        }
    }

    /// The template with this number in this domain.
    pub fn get(&self, domain: u32, number: u16) -> Option<&Known>
        ensures { option_map (λ known. known.now.template.fields) result ≡ fields_in self.now domain number }
    {
        self.known.get(&(domain, number))
    }

    /// From here on the template is known in this domain. It takes the place of an earlier one with its number.
    pub fn insert(&mut self, domain: u32, template: Template) -> Result<(), AllocError>
        requires { 0 < least_length template.fields }
        ensures { OnOk result (self.new ≡ with_template self.old domain template.id template.fields) }
    {
        let key = (domain, template.id);
        let flow = FlowTemplate::of(template.fields.items());
        self.known.insert(key, Known { template, flow })?;
        Ok(())
    }
}

/// The sequence number that the next message of each domain is to have, where it had a message.
#[derive(Drop)]
pub struct SequenceTable {
    expected: IndexMap<u32, u32>,
}

impl Model for SequenceTable {
    ghost use Rattle.ipfix_reader.specs.Known.{Sequences};

    ghost Value = { Sequences };

    ghost view = { λ table. table.expected.entries };
}

impl SequenceTable {
    ghost use Rattle.ipfix_reader.specs.Known.{expected_in, with_expected};

    /// No domain had a message.
    pub fn new(alloc: Global) -> Self
        ensures { result ≡ [] }
    {
        SequenceTable {
            expected: IndexMap::new(alloc),
        }
    }

    /// The number that is expected in this domain.
    #[tactic(auto, unfolding(crate::specs::Known::expected_in))]
    pub fn get(&self, domain: u32) -> Option<u32>
        ensures { result ≡ expected_in self.now domain }
    {
        self.expected.get(&domain).copied()
    }

    /// From here on this number is expected in this domain.
    #[tactic(auto, unfolding(crate::specs::Known::with_expected))]
    pub fn insert(&mut self, domain: u32, number: u32) -> Result<(), AllocError>
        ensures { OnOk result (self.new ≡ with_expected self.old domain number) }
    {
        self.expected.insert(domain, number)?;
        Ok(())
    }
}
