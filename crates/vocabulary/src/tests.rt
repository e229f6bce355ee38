// Each refusal of a vocabulary at its edge, with its place, and the codes and names of one.
use super::faults::{Fault, Question};
use super::vocabularies::Vocabulary;
use std::alloc::Global;
use std::process::Abort;
use std::test::Fail;

fn answers(rt: &impl Abort, text: &[u8], expected: Result<(), Fault>) {
    assert_eq!(rt; Vocabulary::try_from(text).err(), expected.err());
    assert_eq!(rt; Vocabulary::new().read(text), expected);
}

// 512 lines of different names, each of three letters and then `more` times an x.
fn lines(heap: Global, more: &[u8]) -> Result<Vec<u8>, Fail> {
    let mut text = Vec::new(heap);
    for a in b"abcdefgh" {
        for b in b"abcdefgh" {
            for c in b"abcdefgh" {
                text.extend_from_slice(&[*a, *b, *c])?;
                text.extend_from_slice(more)?;
                text.push(b'\n')?;
            }
        }
    }
    Ok(text)
}

#[test]
fn short_texts(rt: HostRuntime) {
    let cases: [(&[u8], Question, u32); 10] = [
        (b"", Question::VocabularySize, 0),
        (b"D", Question::LineNotEnded, 0),
        (b"D\nG", Question::LineNotEnded, 2),
        (b"\n", Question::LineNotName, 0),
        (b"D\n\n", Question::LineNotName, 2),
        (b"D\n1x\n", Question::LineNotName, 2),
        (b"D\nG \n", Question::LineNotName, 2),
        (
            b"aaaaaaaabbbbbbbbccccccccdddddddde\n",
            Question::LineNotName,
            0,
        ),
        (b"D\nG\nD\n", Question::NameTwice, 4),
        (b"D\nG\nG\nS", Question::NameTwice, 4),
    ];
    for (text, question, place) in cases {
        answers(&rt, text, Err(question.at(place)));
    }
    answers(&rt, b"aaaaaaaabbbbbbbbccccccccdddddddd\n", Ok(()));
    answers(&rt, b":a.-9\n_\nd\nD\n", Ok(()));
}

#[test]
fn long_texts(rt: HostRuntime) -> Result<(), Fail> {
    let mut most = lines(rt.alloc(), b"xxxxxxxxxxxxxxxxxxxxxxxxxxxx")?;
    assert_eq!(rt; most.len(), 16384);
    answers(&rt, most.as_slice(), Ok(()));
    most.push(b'D')?;
    answers(&rt, most.as_slice(), Err(Question::VocabularySize.at(0)));
    Ok(())
}

#[test]
fn many_names(rt: HostRuntime) -> Result<(), Fail> {
    let mut text = lines(rt.alloc(), b"")?;
    let mut vocabulary = Vocabulary::new();
    vocabulary.read(text.as_slice())?;
    assert_eq!(rt; vocabulary.len(), 512);
    assert_eq!(rt; vocabulary.code_of(b"hhh"), Some(512));
    text.extend_from_slice(b"D\n")?;
    answers(&rt, text.as_slice(), Err(Question::TooManyNames.at(2048)));
    Ok(())
}

fn is_names_of(rt: &impl Abort, vocabulary: &Vocabulary) {
    assert_eq!(rt; vocabulary.len(), 3);
    let cases: [(u16, Option<&[u8]>); 5] = [
        (0, None),
        (1, Some(b"D")),
        (2, Some(b"G")),
        (3, Some(b"GS")),
        (4, None),
    ];
    for (code, name) in cases {
        assert_eq!(rt; vocabulary.name_of(code), name);
    }
    let cases: [(&[u8], Option<u16>); 7] = [
        (b"D", Some(1)),
        (b"G", Some(2)),
        (b"GS", Some(3)),
        (b"", None),
        (b"S", None),
        (b"d", None),
        (b"GSS", None),
    ];
    for (name, code) in cases {
        assert_eq!(rt; vocabulary.code_of(name), code);
    }
}

#[test]
fn codes_and_names(rt: HostRuntime) -> Result<(), Fail> {
    let mut vocabulary = Vocabulary::new();
    assert_eq!(rt; vocabulary.len(), 0);
    assert_eq!(rt; vocabulary.code_of(b"D"), None);
    vocabulary.read(b"D\nG\nGS\n")?;
    is_names_of(&rt, &vocabulary);
    assert_eq!(rt; vocabulary.read(b"X\nX\n"), Err(Question::NameTwice.at(2)));
    assert_eq!(rt; vocabulary.read(b""), Err(Question::VocabularySize.at(0)));
    is_names_of(&rt, &vocabulary);
    vocabulary.read(b"S\n")?;
    assert_eq!(rt; vocabulary.len(), 1);
    assert_eq!(rt; vocabulary.code_of(b"D"), None);
    Ok(())
}

#[test]
fn shown(rt: HostRuntime) -> Result<(), Fail> {
    let fault = Question::WordNoneOpen.at(7);
    assert_eq!(rt;
        format!(in rt.alloc(); "{fault}")?.as_str(),
        "refused 45 at 7: an end with no element open"
    );
    Ok(())
}
