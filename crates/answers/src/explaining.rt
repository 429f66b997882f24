//! The lines of `explain` about the methods of a class, or its objects of JSON.
ghost use Rattle.std.specs.Prelude.{◌≡◌, map, [], codes, option_map};
ghost use Rattle.classfile.specs.Methods.{code_of};
ghost use Rattle.classfile.specs.Views.{member_view, code_view, handler_view};
ghost use Rattle.frames.specs.FrameFact.{frame_of};
ghost use Rattle.rules.specs.Reasons.{reason_number};
ghost use Rattle.verify.specs.Coming.{before, frames_view};
ghost use Rattle.answers.specs.Details.{sought_by, is_arriving, entry_of, detail_line_of, detail_fields_of};
ghost use Rattle.answers.specs.Explanations.{entry_at, entry_lines, lines_if, frames_for, code_part, explanation, frame_fields_of, declared_fields_of, frame_fields_for, entry_fields, code_fields, explanation_object, explanations};
ghost use Rattle.printing.specs.Json.{fields_then, fields_behind};
ghost use Rattle.answers.specs.Verdicts.{verdict_line, verdict_object, explained};
ghost use Rattle.answers.specs.declared.command.Form.TheVariants.{Plain};

use crate::command::Form;
use crate::details::{DetailFieldsIf, DetailIf, entry_of, is_arriving, sought_by};
use crate::sentences::{ReasonSentenceFields, ReasonSentences};
use crate::verdicts::{VerdictLine, VerdictObject};
use classfile::{CodeAttr, ExceptionHandler, Member};
use frames::Frame;
use pool::Pool;
use printing::{
    END, FrameFields, FrameLines, Handlers, HandlersField, InstructionAt, InstructionFields,
    NamedAt, NamedFields, Print, SizeFields, Sizes, Then, Word, WriteFailed,
};
use rules::Reason;
use std::io::Write;
use verify::{FramesAt, MethodVerdict, Verdict};

/// The entry at a place of an exception table, if there is one.
fn entry_at<'m>(table: &'m [ExceptionHandler], place: Option<usize>) -> &'m [ExceptionHandler]
    ensures { map handler_view result.now ≡ entry_at (map handler_view table.now) place }
{
    let Some(place) = place else {
        return &table[..0];
    };
    if place >= table.len() {
        return &table[..0];
    }
    &table[place..place + 1]
}

/// The line of the entry of the exception table at fault.
#[derive(Clone, Copy)]
struct EntryLines<'m, 'r, 'a> {
    pool: &'m Pool<'a>,
    body: &'m CodeAttr<'a>,
    frames: &'r FramesAt<'a>,
}

impl<'m, 'r, 'a> Print for EntryLines<'m, 'r, 'a> {
    ghost text = { λ t. entry_lines t.pool.now (code_view t.body.now) (frames_view t.frames.now) };

    fn put<W: Write>(&self, out: &mut W) -> Result<(), WriteFailed> {
        let place = entry_of(&self.frames.detail);
        let pool = self.pool;
        let table = entry_at(&self.body.exception_table, place);
        Handlers { pool, table }.put(out)
    }
}

/// The lines of the frame that comes to an instruction, if one does.
#[derive(Clone, Copy)]
struct Coming<'r, 'a>(&'r FramesAt<'a>);

impl<'r, 'a> Print for Coming<'r, 'a> {
    ghost text = { λ t. lines_if [] (frames_view t.0.now).coming };

    fn put<W: Write>(&self, out: &mut W) -> Result<(), WriteFailed> {
        match &self.0.coming {
            Some(frame) => FrameLines { label: "", frame }.put(out),
            None => Word("").put(out),
        }
    }
}

/// The lines of the frame that is declared at an instruction, if one is.
#[derive(Clone, Copy)]
struct Declared<'r, 'a>(&'r FramesAt<'a>);

impl<'r, 'a> Print for Declared<'r, 'a> {
    ghost text = { λ t. lines_if (codes "declared ") (frames_view t.0.now).declared };

    fn put<W: Write>(&self, out: &mut W) -> Result<(), WriteFailed> {
        match &self.0.declared {
            Some(frame) => {
                let label = "declared ";
                FrameLines { label, frame }.put(out)
            }
            None => Word("").put(out),
        }
    }
}

/// The lines of the frame before an instruction, if there is one.
#[derive(Clone, Copy)]
struct Before<'r, 'a>(&'r FramesAt<'a>);

impl<'r, 'a> Print for Before<'r, 'a> {
    ghost text = { λ t. lines_if [] (before (frames_view t.0.now).coming (frames_view t.0.now).declared) };

    fn put<W: Write>(&self, out: &mut W) -> Result<(), WriteFailed> {
        match &self.0.declared {
            Some(frame) => FrameLines { label: "", frame }.put(out),
            None => Coming(self.0).put(out),
        }
    }
}

/// The frame before the instruction at which a method is refused; where the frame that comes is compared with the
/// declared one, both.
#[derive(Clone, Copy)]
struct FramesFor<'r, 'a>(&'r FramesAt<'a>);

impl<'r, 'a> Print for FramesFor<'r, 'a> {
    ghost text = { λ t. frames_for (frames_view t.0.now) };

    fn put<W: Write>(&self, out: &mut W) -> Result<(), WriteFailed> {
        if is_arriving(&self.0.detail) {
            Then(Coming(self.0), Declared(self.0)).put(out)
        } else {
            Before(self.0).put(out)
        }
    }
}

/// The part of the code that is shown of a method which is refused at an offset for a reason.
#[derive(Clone, Copy)]
struct CodePart<'m, 'r, 'a> {
    reason: Reason<'a>,
    pool: &'m Pool<'a>,
    member: &'m Member<'a>,
    at: usize,
    frames: &'r FramesAt<'a>,
}

impl<'m, 'r, 'a> Print for CodePart<'m, 'r, 'a> {
    ghost text = { λ t. code_part (reason_number t.reason) t.pool.now
        (code_of (member_view t.member.now).attributes) t.at (frames_view t.frames.now) };

    fn put<W: Write>(&self, out: &mut W) -> Result<(), WriteFailed> {
        match self.member.code() {
            None => Word("").put(out),
            Some(body) => {
                let code = body.code;
                let at = self.at;
                let pool = self.pool;
                let frames = self.frames;
                let sought = sought_by(&self.reason);
                let detail = DetailIf {
                    sought,
                    detail: frames.detail,
                };
                let entries = EntryLines { pool, body, frames };
                let named = NamedAt { pool, code, at };
                let wrong = Then(FramesFor(frames), Then(detail, entries));
                let behind = Then(named, wrong);
                let behind = Then(InstructionAt { code, at }, behind);
                Then(Sizes(body), behind).put(out)
            }
        }
    }
}

/// The lines about a method that is refused: its verdict, the explanation, and the frames at the instruction at which
/// it is refused. There are none for a method that is not refused.
#[derive(Clone, Copy)]
struct Explanation<'m, 'r, 'a> {
    pool: &'m Pool<'a>,
    member: &'m Member<'a>,
    method: MethodVerdict<'a>,
    frames: &'r FramesAt<'a>,
}

impl<'m, 'r, 'a> Print for Explanation<'m, 'r, 'a> {
    ghost text = { λ t. explanation t.pool.now (code_of (member_view t.member.now).attributes)
        (verdict_line Plain t.method) t.method.verdict (frames_view t.frames.now) };

    fn put<W: Write>(&self, out: &mut W) -> Result<(), WriteFailed> {
        match self.method.verdict {
            Verdict::Verified | Verdict::NoCode => Word("").put(out),
            Verdict::Refused { at, reason } => {
                let line = VerdictLine {
                    form: Form::Plain,
                    method: self.method,
                };
                let code = CodePart {
                    reason,
                    pool: self.pool,
                    member: self.member,
                    at,
                    frames: self.frames,
                };
                Then(line, Then(ReasonSentences(reason), code)).put(out)
            }
        }
    }
}

/// The entry of the exception table at a place as the last field of an object, if there is one, and then the end of the
/// object.
#[derive(Clone, Copy)]
struct EntryFields<'m, 'a> {
    pool: &'m Pool<'a>,
    body: &'m CodeAttr<'a>,
    place: Option<usize>,
}

impl<'m, 'a> Print for EntryFields<'m, 'a> {
    ghost text = { λ t. fields_behind (entry_fields t.pool.now (code_view t.body.now) t.place) };

    fn put<W: Write>(&self, out: &mut W) -> Result<(), WriteFailed> {
        match self.place {
            Some(place) => HandlersField {
                pool: self.pool,
                table: entry_at(&self.body.exception_table, Some(place)),
                behind: END,
            }
            .put(out),
            None => END.put(out),
        }
    }
}

/// The fields of a frame, if there is one, and then the text after them.
#[derive(Clone, Copy)]
struct FrameIf<'r, 'a, B>(Option<&'r Frame<'a>>, B);

impl<'r, 'a, B: Print + Copy> Print for FrameIf<'r, 'a, B> {
    ghost text = { λ t. fields_then (frame_fields_of (option_map (λ f. frame_of f.now) t.0)) (B.text t.1) };

    fn put<W: Write>(&self, out: &mut W) -> Result<(), WriteFailed> {
        match self.0 {
            Some(frame) => FrameFields {
                locals: "locals",
                stack: "stack",
                flags: "flags",
                frame,
                behind: self.1,
            }
            .put(out),
            None => self.1.put(out),
        }
    }
}

/// The fields of a declared frame, if there is one, and then the text after them.
#[derive(Clone, Copy)]
struct DeclaredIf<'r, 'a, B>(Option<&'r Frame<'a>>, B);

impl<'r, 'a, B: Print + Copy> Print for DeclaredIf<'r, 'a, B> {
    ghost text = { λ t. fields_then (declared_fields_of (option_map (λ f. frame_of f.now) t.0)) (B.text t.1) };

    fn put<W: Write>(&self, out: &mut W) -> Result<(), WriteFailed> {
        match self.0 {
            Some(frame) => FrameFields {
                locals: "declared_locals",
                stack: "declared_stack",
                flags: "declared_flags",
                frame,
                behind: self.1,
            }
            .put(out),
            None => self.1.put(out),
        }
    }
}

/// The fields of the frame before the instruction at which a method is refused, and then what stands after them; where
/// the frame that comes is compared with the declared one, the fields of both.
#[derive(Clone, Copy)]
struct FrameFieldsFor<'r, 'a, B> {
    frames: &'r FramesAt<'a>,
    behind: B,
}

impl<'r, 'a, B: Print + Copy> Print for FrameFieldsFor<'r, 'a, B> {
    ghost text = { λ t. frame_fields_for (frames_view t.frames.now) (B.text t.behind) };

    fn put<W: Write>(&self, out: &mut W) -> Result<(), WriteFailed> {
        let coming = self.frames.coming.as_ref();
        let declared = self.frames.declared.as_ref();
        if is_arriving(&self.frames.detail) {
            return FrameIf(coming, DeclaredIf(declared, self.behind)).put(out);
        }
        match declared {
            Some(_) => FrameIf(declared, self.behind).put(out),
            None => FrameIf(coming, self.behind).put(out),
        }
    }
}

/// The fields on the code of a method which is refused at an offset, and the end of the object.
#[derive(Clone, Copy)]
struct CodeFields<'m, 'r, 'a> {
    pool: &'m Pool<'a>,
    member: &'m Member<'a>,
    at: usize,
    frames: &'r FramesAt<'a>,
}

impl<'m, 'r, 'a> Print for CodeFields<'m, 'r, 'a> {
    ghost text = { λ t. code_fields t.pool.now (code_of (member_view t.member.now).attributes) t.at
        (frames_view t.frames.now) };

    fn put<W: Write>(&self, out: &mut W) -> Result<(), WriteFailed> {
        match self.member.code() {
            None => END.put(out),
            Some(body) => {
                let code = body.code;
                let at = self.at;
                let pool = self.pool;
                let detail = self.frames.detail;
                let place = entry_of(&detail);
                let entry = EntryFields { pool, body, place };
                let frames = FrameFieldsFor {
                    frames: self.frames,
                    behind: DetailFieldsIf(detail, entry),
                };
                let named = NamedFields {
                    pool,
                    code,
                    at,
                    behind: frames,
                };
                let behind = InstructionFields {
                    code,
                    at,
                    behind: named,
                };
                SizeFields(body, behind).put(out)
            }
        }
    }
}

/// The object of JSON about a method that is refused: its verdict, the explanation, and the frames at the instruction
/// at which it is refused. There is none for a method that is not refused.
#[derive(Clone, Copy)]
struct ExplanationObject<'m, 'r, 'a> {
    pool: &'m Pool<'a>,
    member: &'m Member<'a>,
    method: MethodVerdict<'a>,
    frames: &'r FramesAt<'a>,
}

impl<'m, 'r, 'a> Print for ExplanationObject<'m, 'r, 'a> {
    ghost text = { λ t. explanation_object t.pool.now (code_of (member_view t.member.now).attributes)
        (verdict_object t.method) t.method.verdict (frames_view t.frames.now) };

    fn put<W: Write>(&self, out: &mut W) -> Result<(), WriteFailed> {
        match self.method.verdict {
            Verdict::Verified | Verdict::NoCode => Word("").put(out),
            Verdict::Refused { at, reason } => {
                let code = CodeFields {
                    pool: self.pool,
                    member: self.member,
                    at,
                    frames: self.frames,
                };
                VerdictObject {
                    method: self.method,
                    behind: ReasonSentenceFields(reason, code),
                }
                .put(out)
            }
        }
    }
}

/// The explanation of a method that is refused, in a form.
#[derive(Clone, Copy)]
struct Explained<'m, 'r, 'a> {
    form: Form,
    pool: &'m Pool<'a>,
    member: &'m Member<'a>,
    method: MethodVerdict<'a>,
    frames: &'r FramesAt<'a>,
}

impl<'m, 'r, 'a> Print for Explained<'m, 'r, 'a> {
    ghost text = { λ t. explained t.form t.pool.now t.method (code_of (member_view t.member.now).attributes)
        (frames_view t.frames.now) };

    fn put<W: Write>(&self, out: &mut W) -> Result<(), WriteFailed> {
        let pool = self.pool;
        let member = self.member;
        let method = self.method;
        let frames = self.frames;
        match self.form {
            Form::Plain => Explanation {
                pool,
                member,
                method,
                frames,
            }
            .put(out),
            Form::Json => ExplanationObject {
                pool,
                member,
                method,
                frames,
            }
            .put(out),
        }
    }
}

/// The explanations of the methods of a class that are refused. The pool has the names of the methods; each method has
/// a verdict, and frames at the instruction at which it is refused.
#[derive(Clone, Copy)]
pub struct Explanations<'m, 'r, 'a> {
    pub form: Form,
    pub pool: &'m Pool<'a>,
    pub members: &'m [Member<'a>],
    pub methods: &'r [MethodVerdict<'a>],
    pub frames: &'r [FramesAt<'a>],
}

impl<'m, 'r, 'a> Print for Explanations<'m, 'r, 'a> {
    ghost text = { λ t. explanations (explained t.form t.pool.now)
        (map member_view t.members.now) t.methods.now t.frames.now };

    fn put<W: Write>(&self, out: &mut W) -> Result<(), WriteFailed> {
        let count = self.members.len().min(self.methods.len());
        let count = count.min(self.frames.len());
        for i in 0..count {
            let explanation = Explained {
                form: self.form,
                pool: self.pool,
                member: &self.members[i],
                method: self.methods[i],
                frames: &self.frames[i],
            };
            match explanation.put(out) {
                Ok(()) => {}
                Err(failed) => return Err(failed),
            }
        }
        Ok(())
    }
}
