// The files of the current folder, and which of them each command reads and writes.
ghost use Rattle.std.specs.Prelude.{◌≡◌, ◌==◌, ◌++◌, ◌∷◌, [], true, false, IfOk, All, codes, filter, string_bytes};
ghost use Rattle.std.specs.List.{list_any};
ghost use Rattle.command_words.specs.Words.{IsForm, texts};
ghost use Rattle.command_words.specs.declared.words.Command.{Command};
ghost use Rattle.program_words.specs.Files.{AreRead, AreWritten, IsInput, IsOfPlan, IsOutput, ReadsPlan};
ghost use Rattle.program_words.specs.Files.{files_read, files_written, is_line_below, is_read, is_text_of, is_written};
ghost use Rattle.program_words.specs.Files.{client_name, input_name, output_name};

use command_words::{Command, command_of};
use otn_base::limits::{CLIENTS, LINES};
use std::alloc::{AllocError, Global};

/// A file that an input place may have.
#[derive(Clone, Copy, Debug, PartialEq, Eq)]
pub enum InputFile {
    /// Line input 0 to 3, `line-N.in`.
    Line(u8),
    /// Client input 0 to 15 as packet text, `client-NN.in`.
    Text(u8),
    /// Client input 0 to 15 as a capture, `client-NN.pcap`: read where there is no packet text.
    Capture(u8),
}

/// A file that an output place may have.
#[derive(Clone, Copy, Debug, PartialEq, Eq)]
pub enum OutputFile {
    /// Line output 0 to 3, `line-N.out`.
    Line(u8),
    /// Client output 0 to 15 as packet text, `client-NN.out`.
    Text(u8),
    /// Client output 0 to 15 as a capture, `client-NN.pcap.out`.
    Capture(u8),
}

impl InputFile {
    /// The name of the file.
    pub fn name(self, alloc: Global) -> Result<String, AllocError>
        ensures { IfOk result (λ name. string_bytes name ≡ input_name self) }
    {
        match self {
            InputFile::Line(n) => format!(in alloc; "line-{n}.in"),
            InputFile::Text(n) => name_of_client(alloc, n, ".in"),
            InputFile::Capture(n) => name_of_client(alloc, n, ".pcap"),
        }
    }
}

impl OutputFile {
    /// The name of the file.
    pub fn name(self, alloc: Global) -> Result<String, AllocError>
        ensures { IfOk result (λ name. string_bytes name ≡ output_name self) }
    {
        match self {
            OutputFile::Line(n) => format!(in alloc; "line-{n}.out"),
            OutputFile::Text(n) => name_of_client(alloc, n, ".out"),
            OutputFile::Capture(n) => name_of_client(alloc, n, ".pcap.out"),
        }
    }
}

// The name of a client's file: its number in two digits, and this ending.
fn name_of_client(alloc: Global, n: u8, ending: &str) -> Result<String, AllocError>
    ensures { IfOk result (λ name. string_bytes name ≡ client_name n ending.now) }
{
    let tens = n / 10;
    let units = n % 10;
    format!(in alloc; "client-{tens}{units}{ending}")
}

/// The files of the inputs that the command of these words reads, in the order in which they are opened. The packet
/// text of a client comes before its capture, which is for a client without a text. Words that are no command have no
/// files.
pub fn input_files(alloc: Global, words: &[String]) -> Result<Vec<InputFile>, AllocError>
    ensures files { IfOk result (λ files. AreRead (texts words.now) files.items) }
    ensures places { IfOk result (λ files. All IsInput files.items) }
{
    match command_of(words) {
        Some(command) => files_read(alloc, &command),
        None => Ok(Vec::new(alloc)),
    }
}

/// The files of the outputs that the command of these words writes. Words that are no command have no files.
pub fn output_files(alloc: Global, words: &[String]) -> Result<Vec<OutputFile>, AllocError>
    ensures files { IfOk result (λ files. AreWritten (texts words.now) files.items) }
    ensures places { IfOk result (λ files. All IsOutput files.items) }
{
    match command_of(words) {
        Some(command) => files_written(alloc, &command),
        None => Ok(Vec::new(alloc)),
    }
}

/// Whether the command of these words reads the plan.
pub fn reads_plan(words: &[String]) -> bool
    ensures plan { result ≡ true → ReadsPlan (texts words.now) }
    ensures no_plan { result ≡ false → (command : Command) → IsForm (texts words.now) command → IsOfPlan command → ⊥ }
{
    match command_of(words) {
        Some(command) => is_of_plan(&command),
        None => false,
    }
}

// The files that a command reads.
fn files_read(alloc: Global, command: &Command) -> Result<Vec<InputFile>, AllocError>
    ensures files { IfOk result (λ all. all.items ≡ files_read command.now) }
    ensures places { IfOk result (λ all. All IsInput all.items) }
{
    let mut files = Vec::new(alloc);
    for n in 0..LINES as u8 {
        add_input(&mut files, command, InputFile::Line(n))?;
    }
    for n in 0..CLIENTS as u8 {
        add_input(&mut files, command, InputFile::Text(n))?;
        add_input(&mut files, command, InputFile::Capture(n))?;
    }
    Ok(files)
}

// The files that a command writes.
fn files_written(alloc: Global, command: &Command) -> Result<Vec<OutputFile>, AllocError>
    ensures files { IfOk result (λ all. all.items ≡ files_written command.now) }
    ensures places { IfOk result (λ all. All IsOutput all.items) }
{
    let mut files = Vec::new(alloc);
    for n in 0..LINES as u8 {
        add_output(&mut files, command, OutputFile::Line(n))?;
    }
    for n in 0..CLIENTS as u8 {
        add_output(&mut files, command, OutputFile::Text(n))?;
        add_output(&mut files, command, OutputFile::Capture(n))?;
    }
    Ok(files)
}

// Adds this file to those that the command reads, where it does.
fn add_input(
    files: &mut Vec<InputFile>,
    command: &Command,
    file: InputFile,
) -> Result<(), AllocError>
    ensures { IfOk result (λ _. files.new.items ≡ files.old.items ++ filter (is_read command.now) (file ∷ [])) }
{
    if reads(command, file) {
        files.push(file)?;
    }
    Ok(())
}

// Adds this file to those that the command writes, where it does.
fn add_output(
    files: &mut Vec<OutputFile>,
    command: &Command,
    file: OutputFile,
) -> Result<(), AllocError>
    ensures { IfOk result (λ _. files.new.items ≡ files.old.items ++ filter (is_written command.now) (file ∷ [])) }
{
    if writes(command, file) {
        files.push(file)?;
    }
    Ok(())
}

// Whether the command reads this file.
fn reads(command: &Command, file: InputFile) -> bool
    ensures { result ≡ is_read command.now file }
{
    match command {
        Command::Slot(_) | Command::Pull(..) | Command::Unbundle(_) => is_line_below(file, 1),
        Command::Run | Command::RunOrdered(_) => !matches!(file, InputFile::Capture(_)),
        Command::RunCaptures => true,
        Command::Protect(..) => is_line_below(file, 2),
        Command::Bundle(clients, _) => is_text_of(file, clients.as_slice()),
        Command::Check | Command::Trial(_) => false,
    }
}

// Whether it is the file of one of the first lines, of so many.
fn is_line_below(file: InputFile, count: u8) -> bool
    ensures { result ≡ is_line_below count file }
{
    match file {
        InputFile::Line(n) => n < count,
        InputFile::Text(_) | InputFile::Capture(_) => false,
    }
}

// Whether it is the packet text of one of these clients.
fn is_text_of(file: InputFile, clients: &[u8]) -> bool
    ensures { result ≡ is_text_of clients.now file }
{
    match file {
        InputFile::Text(n) => is_listed(clients, n),
        InputFile::Line(_) | InputFile::Capture(_) => false,
    }
}

fn is_listed(clients: &[u8], n: u8) -> bool
    ensures { result ≡ list_any (λ client. client == n) clients.now }
{
    clients.iter().any(|&client| client == n)
}

// Whether the command writes this file.
fn writes(command: &Command, file: OutputFile) -> bool
    ensures { result ≡ is_written command.now file }
{
    match command {
        Command::Run | Command::RunOrdered(_) => !matches!(file, OutputFile::Capture(_)),
        Command::RunCaptures => !matches!(file, OutputFile::Text(_)),
        Command::Protect(..) | Command::Bundle(..) => matches!(file, OutputFile::Line(0)),
        Command::Unbundle(_) => matches!(file, OutputFile::Text(_)),
        Command::Slot(_) | Command::Pull(..) | Command::Check | Command::Trial(_) => false,
    }
}

// Whether the command reads the plan.
fn is_of_plan(command: &Command) -> bool
    ensures yes { result ≡ true → IsOfPlan command.now }
    ensures no { result ≡ false → IsOfPlan command.now → ⊥ }
{
    match command {
        Command::Check | Command::Run | Command::RunOrdered(_) | Command::RunCaptures => true,
        Command::Slot(_) | Command::Pull(..) | Command::Protect(..) | Command::Trial(_) => false,
        Command::Bundle(..) | Command::Unbundle(_) => false,
    }
}
