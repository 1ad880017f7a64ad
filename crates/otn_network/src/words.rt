// The words after the program's name.

/// What the words ask for.
#[derive(Clone, Copy)]
pub(crate) enum Asked<'a> {
    /// The page.
    Page,
    /// The network of this file.
    File(&'a str),
    /// The network of this file, as JSON.
    Json(&'a str),
    /// Nothing: the words have another form.
    Nothing,
}

/// What these words ask for: `--help`, `FILE` or `--json FILE`, where FILE is network.toml if it is not said.
pub(crate) fn asked_of(words: &[String]) -> Asked<'_> {
    match words {
        [] => Asked::File("network.toml"),
        [word] if word.as_str() == "--help" => Asked::Page,
        [word] if word.as_str() == "--json" => Asked::Json("network.toml"),
        [word] => Asked::File(word.as_str()),
        [word, path] if word.as_str() == "--json" => Asked::Json(path.as_str()),
        _ => Asked::Nothing,
    }
}
