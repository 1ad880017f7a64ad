// Choices of a selector.
mod choices;
