// A fibre between nodes that are named, as the text has it.
ghost use Rattle.std.specs.Prelude.{◌≡◌, option_map};
ghost use Rattle.toml.specs.View.{view};
ghost use Rattle.network_file.specs.Table.{end_at, fibre_at};

use plan_table::{number_or, text_or_empty};
use std::marker::Model;
use toml::Value;

/// An end of a fibre: the name of its node, and its line.
#[derive(Drop)]
pub(crate) struct End<'a> {
    node: &'a str,
    line: i64,
}

impl<'a> Model for End<'a> {
    ghost use Rattle.network_file.specs.Outline.{End};

    ghost Value = { End };

    ghost view = { λ e. record { node = e.node.now; line = e.line } };
}

impl<'a> End<'a> {
    // The end that the value says, if there is one.
    fn of_table(end: Option<&'a Value>) -> End<'a>
        ensures { result ≡ end_at (option_map (λ v. view v.now) end.entry) }
    {
        match end {
            Some(end) => End {
                node: text_or_empty(end.get("node")),
                line: number_or(end.get("line"), 0),
            },
            None => End { node: "", line: 0 },
        }
    }

    pub(crate) fn node(&self) -> &'a str
        ensures { result.now ≡ self.now.node }
    {
        self.node
    }

    pub(crate) fn line(&self) -> i64
        ensures { result ≡ self.now.line }
    {
        self.line
    }
}

/// A fibre, from a line output to a line input.
#[derive(Drop)]
pub(crate) struct Fibre<'a> {
    pub(crate) from: End<'a>,
    pub(crate) to: End<'a>,
}

impl<'a> Model for Fibre<'a> {
    ghost use Rattle.network_file.specs.Outline.{Fibre};

    ghost Value = { Fibre };

    ghost view = { λ f. record { from = f.from; to = f.to } };
}

impl<'a> Fibre<'a> {
    /// The fibre that the value says.
    pub(crate) fn of_table(fibre: &'a Value) -> Fibre<'a>
        ensures { result ≡ fibre_at (view fibre.now) }
    {
        Fibre {
            from: End::of_table(fibre.get("from")),
            to: End::of_table(fibre.get("to")),
        }
    }
}
