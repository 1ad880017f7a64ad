// The order in which ports that are ready are served.
use line_tool::NumberChooser;
use otn_ports::{Chooser, FirstReady};

/// A chooser of one of two kinds, so that the program has one call of `run`, and is built with one.
#[derive(Drop)]
pub enum ServingOrder {
    /// Always the first that is ready.
    First(FirstReady),
    /// By the words that a number gives.
    Drawn(NumberChooser),
}

impl ServingOrder {
    /// By this number, where there is one; one that was never asked.
    pub fn of(number: Option<u64>) -> ServingOrder {
        match number {
            Some(number) => ServingOrder::Drawn(NumberChooser::new(number)),
            None => ServingOrder::First(FirstReady::new()),
        }
    }
}

impl Chooser for ServingOrder {
    ghost use Rattle.otn.specs.ServingOrder.{order_asked};

    ghost asked = { order_asked };

    fn pick(&mut self, n: u32) -> u32 {
        match self {
            ServingOrder::First(chooser) => chooser.pick(n),
            ServingOrder::Drawn(chooser) => chooser.pick(n),
        }
    }
}
