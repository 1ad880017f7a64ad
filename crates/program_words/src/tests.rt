// What no contract says: all words are taken up, whatever one of them is, and calls succeed.
use crate::{
    InputFile, Opened, Page, given_words, input_files, opened_input, output_files, page_of,
};
use std::alloc::{AllocError, Global};
use std::env::FillError;
use std::io;
use std::io::ErrorKind;
use std::rt::Env;
use std::test::Fail;

// A program that was called with these words after its name. One of more than five bytes is too long.
#[derive(Drop)]
struct Called {
    words: [&'static [u8]; 5],
}

impl Env for Called {
    fn arg(&self, i: usize, buf: &mut [u8]) -> Result<usize, FillError> {
        if i == 0 || i > 5 {
            return Err(FillError::NotPresent);
        }
        let word = self.words[i - 1];
        if word.len() > 5 || word.len() > buf.len() {
            return Err(FillError::TooLong);
        }
        buf[..word.len()].copy_from_slice(word);
        Ok(word.len())
    }

    fn var(&self, _name: &str, _buf: &mut [u8]) -> Result<usize, FillError> {
        Err(FillError::NotPresent)
    }

    fn var_at(&self, _i: usize, _buf: &mut [u8]) -> Result<usize, FillError> {
        Err(FillError::NotPresent)
    }
}

#[test]
fn all_words_are_taken_up(rt: HostRuntime) -> Result<(), Fail> {
    let called = Called {
        words: [b"pull", b"too long", b"\xFF", b"", b"3"],
    };
    let words = given_words(&called, rt.alloc())?;
    assert_eq!(rt; words.len(), 5);
    for (word, want) in words.iter().zip(["pull", "", "", "", "3"]) {
        assert_eq!(rt; word.as_str(), want);
    }
    Ok(())
}

// The words of a command line, with a blank between two.
fn words_of(alloc: Global, line: &str) -> Result<Vec<String>, AllocError> {
    let mut words = Vec::new(alloc);
    for word in line.split(' ') {
        words.push(String::from_str(alloc, word)?)?;
    }
    Ok(words)
}

#[test]
fn files_of_command_lines(rt: HostRuntime) -> Result<(), Fail> {
    let alloc = rt.alloc();
    let lines =
        "run|run --pcap|run --order 3|slot 1|pull 1 3|protect 1 3 20 4|bundle 0,5 8|unbundle 8|check|trial 7|run --ordr 3|--help";
    let counts = [20, 36, 20, 1, 1, 2, 2, 1, 0, 0, 0, 0];
    let outputs = [20, 20, 20, 0, 0, 1, 1, 16, 0, 0, 0, 0];
    for ((line, inputs), outputs) in lines.split('|').zip(counts).zip(outputs) {
        let words = words_of(alloc, line)?;
        assert_eq!(rt; input_files(alloc, &words)?.len(), inputs, "{line}");
        assert_eq!(rt; output_files(alloc, &words)?.len(), outputs, "{line}");
    }
    assert_eq!(rt; InputFile::Text(15).name(alloc)?.as_str(), "client-15.in");
    assert_eq!(rt;
        InputFile::Capture(9).name(alloc)?.as_str(),
        "client-09.pcap"
    );
    assert_eq!(rt; page_of(&words_of(alloc, "help")?), Some(Page::Help));
    assert_eq!(rt; page_of(&words_of(alloc, "run --help")?), None);
    Ok(())
}

#[test]
fn a_file_that_may_not_be_read_is_there(rt: HostRuntime) {
    let absent: io::Result<u8> = Err(io::Error::from(ErrorKind::NotFound));
    let denied: io::Result<u8> = Err(io::Error::from(ErrorKind::PermissionDenied));
    assert!(rt; matches!(opened_input(absent), Opened::Absent));
    assert!(rt; matches!(opened_input(denied), Opened::Refused));
    assert!(rt; matches!(opened_input(Ok(7u8)), Opened::File(7)));
}
