// Each refusal of filter text at its edge, with its place, and what is written into a buffer.
use super::{parse_filter, read_filter, write_filter};
use filter::{Axis, Filter, Step, Test};
use std::test::Fail;
use vocabulary::{Fault, Question, Vocabulary};

const LONG: &[u8] = b"aaaaaaaabbbbbbbbccccccccdddddddd";

// Texts with the question that says no, and its place.
const REFUSED: [(&[u8], Question, u32); 12] = [
    (b"", Question::FilterSize, 0),
    (b"/D/D/D/D/D/D/D//D/D", Question::TooManySteps, 17),
    (b"/*/*/*/*/*/*/*/*x", Question::TooManySteps, 16),
    (b"D", Question::StepNoSlash, 0),
    (b"/D G", Question::StepNoSlash, 2),
    (b"/", Question::StepNoTest, 1),
    (b"//", Question::StepNoTest, 2),
    (b"/1", Question::StepNoTest, 1),
    (b"///D", Question::StepNoTest, 2),
    (
        b"/D//aaaaaaaabbbbbbbbccccccccdddddddde",
        Question::StepNameLong,
        4,
    ),
    (
        b"/aaaaaaaabbbbbbbbccccccccdddddddd",
        Question::StepNameUnknown,
        1,
    ),
    (b"/D/X", Question::StepNameUnknown, 3),
];

#[test]
fn refusals(rt: HostRuntime) -> Result<(), Fail> {
    let mut vocabulary = Vocabulary::new();
    vocabulary.read(b"D\nG\nS\n")?;
    let mut filter = Filter::new();
    read_filter(b"//G", &vocabulary, &mut filter)?;
    for (text, question, place) in REFUSED {
        assert_eq!(rt;
            parse_filter(text, &vocabulary).err(),
            Some(question.at(place))
        );
        assert_eq!(rt;
            read_filter(text, &vocabulary, &mut filter),
            Err(question.at(place))
        );
        assert_eq!(rt;
            filter.steps(),
            [Step {
                axis: Axis::Descendant,
                test: Test::Code(2),
            }]
            .as_slice()
        );
    }
    read_filter(b"/D/D/D/D/D/D/D//D", &vocabulary, &mut filter)?;
    assert_eq!(rt; filter.len(), 8);
    Ok(())
}

#[test]
fn longest(rt: HostRuntime) -> Result<(), Fail> {
    let mut vocabulary = Vocabulary::new();
    vocabulary.read(b"aaaaaaaabbbbbbbbccccccccdddddddd\n")?;
    let mut text = Vec::new(rt.alloc());
    for _ in 0..8 {
        text.extend_from_slice(b"//")?;
        text.extend_from_slice(LONG)?;
    }
    let mut filter = Filter::new();
    read_filter(text.as_slice(), &vocabulary, &mut filter)?;
    assert_eq!(rt; filter.len(), 8);
    let mut buffer = [0; 272];
    assert_eq!(rt; write_filter(&filter, &vocabulary, &mut buffer), Ok(272));
    assert_eq!(rt; text.as_slice(), buffer.as_slice());
    text.push(b'/')?;
    assert_eq!(rt;
        read_filter(text.as_slice(), &vocabulary, &mut filter),
        Err(Question::FilterSize.at(0))
    );
    Ok(())
}

#[test]
fn written(rt: HostRuntime) -> Result<(), Fail> {
    let mut vocabulary = Vocabulary::new();
    vocabulary.read(b"D\nG\nS\n")?;
    let mut filter = Filter::new();
    read_filter(b"/D//*/S", &vocabulary, &mut filter)?;
    let short = Question::BufferShort.at(0);
    let cases: [(usize, Result<usize, Fault>, &[u8]); 4] = [
        (0, Err(short), b"yyyyyyyyy"),
        (6, Err(short), b"yyyyyyyyy"),
        (7, Ok(7), b"/D//*/Syy"),
        (9, Ok(7), b"/D//*/S\0\0"),
    ];
    for (len, answer, expected) in cases {
        let mut buffer = [b'y'; 9];
        assert!(rt; len <= buffer.len());
        assert_eq!(rt;
            write_filter(&filter, &vocabulary, &mut buffer[0..len]),
            answer
        );
        assert_eq!(rt; buffer.as_slice(), expected);
    }
    Ok(())
}

#[test]
fn unknown_code(rt: HostRuntime) -> Result<(), Fail> {
    let mut vocabulary = Vocabulary::new();
    vocabulary.read(b"D\nG\nS\n")?;
    for (code, answer) in [(3, Ok(4)), (4, Err(Question::CodeUnknown.at(2)))] {
        let any = Step {
            axis: Axis::Child,
            test: Test::Any,
        };
        let mut buffer = *b"yyyy";
        let steps = [
            any,
            Step {
                axis: Axis::Child,
                test: Test::Code(code),
            },
        ];
        let filter = Filter::from_steps(&steps).ok_or_else(|| Fail::new("refused"))?;
        assert_eq!(rt; write_filter(&filter, &vocabulary, &mut buffer), answer);
        assert_eq!(rt; &buffer, if answer.is_ok() { b"/*/S" } else { b"yyyy" });
    }
    Ok(())
}
