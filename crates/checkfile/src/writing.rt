// Writing a check table file.
ghost use Rattle.std.specs.Prelude.{◌≡◌, ℕ, ◌+◌, ◌*◌, ◌<◌, ◌≤◌, [], ◌∷◌, ◌++◌, length, take};
ghost use Rattle.std.specs.List.{flat_map};
ghost use Rattle.checkfile.specs.Contents.{content_of, rule_costs, write_answer, buffer_after, ReadsBack};
ghost use Rattle.checkfile.specs.Rules.{kind_of_rule};
ghost use Rattle.checkfile.specs.Layout.{Put, field, layout, kind_byte, two_bytes};

use crate::code::Code;
use crate::rule::FileRule;
use refusals::Refusal;
use rules::rule::Rule;

// A lent buffer, filled from its front: as the reader has it, with the offset where it goes on.
#[derive(Drop)]
struct Writer<'a> {
    buffer: &'a mut [u8],
    offset: usize,
}

impl Writer<'_> {
    ghost use Rattle.checkfile.specs.Writes.{HasRoom, Writes};

    fn put(&mut self, bytes: &[u8])
        requires { HasRoom self.old bytes.now }
        ensures { Writes self.old self.new bytes.now }
    {
        let next = self.offset + bytes.len();
        self.buffer[self.offset..next].copy_from_slice(bytes);
        self.offset = next;
    }

    // A tag, and the length of what follows it with its high byte first.
    fn head(&mut self, tag: u8, size: u16)
        requires { HasRoom self.old (tag ∷ two_bytes size) }
        ensures { Writes self.old self.new (tag ∷ two_bytes size) }
    {
        let [hi, lo] = size.to_be_bytes();
        self.put(&[tag, hi, lo]);
    }

    fn field(&mut self, tag: u8, contents: &[u8])
        requires room { HasRoom self.old (field tag contents.now) }
        requires short { length contents.now < 65536 }
        ensures { Writes self.old self.new (field tag contents.now) }
    {
        self.head(tag, contents.len() as u16);
        self.put(contents);
    }

    fn costs(&mut self, costs: &[u16])
        requires { HasRoom self.old (flat_map two_bytes costs.now) }
        ensures { Writes self.old self.new (flat_map two_bytes costs.now) }
    {
        for cost in costs {
            self.put(&cost.to_be_bytes());
        }
    }

    // The rule's field, and that of its costs where it has any.
    fn rule(&mut self, rule: &FileRule)
        requires { HasRoom self.old (field 4 (kind_byte (kind_of_rule rule.now) ∷ []) ++ rule_costs rule.now) }
        ensures { Writes self.old self.new (field 4 (kind_byte (kind_of_rule rule.now) ∷ []) ++ rule_costs rule.now) }
    {
        self.field(4, &[u8::from(rule.kind())]);
        if let FileRule::Cost(rule) = rule {
            let costs = rule.costs();
            self.head(5, 2 * costs.len() as u16);
            self.costs(costs);
        }
    }

    // The whole file.
    fn file(&mut self, code: &Code, rule: &FileRule)
        requires { HasRoom self.old (layout (content_of code.now rule.now)) }
        ensures { Writes self.old self.new (layout (content_of code.now rule.now)) }
    {
        self.field(1, &[code.sizes.q]);
        self.field(2, &[code.sizes.places.get() as u8, code.sizes.r]);
        self.field(3, code.symbols());
        self.rule(rule);
    }
}

fn costs_length(rule: &FileRule) -> usize
    ensures value { result ≡ length (rule_costs rule.now) }
    ensures bound { result ≤ 51 }
{
    match rule {
        FileRule::Plain(_) | FileRule::Weight(_) => 0,
        FileRule::Cost(rule) => 3 + 2 * rule.places(),
    }
}

// The whole file at the front of a buffer with room for it; answers its length.
fn put_file(code: &Code, rule: &FileRule, buffer: &mut [u8]) -> usize
    requires { length (layout (content_of code.now rule.now)) ≤ length buffer.old }
    ensures { Put (layout (content_of code.now rule.now)) 0 buffer.old buffer.new result }
{
    let mut writer = Writer { buffer, offset: 0 };
    writer.file(code, rule);
    writer.offset
}

// The file of a code and a rule, at the front of the buffer; answers its length.
pub fn write(code: &Code, rule: &FileRule, buffer: &mut [u8]) -> Result<usize, Refusal>
    ensures answer { result ≡ write_answer code.now rule.now (length buffer.old) }
    ensures buffer { buffer.new ≡ buffer_after code.now rule.now buffer.old }
    ensures back { ReadsBack code.now rule.now buffer.new result }
{
    if rule.n() != code.n() {
        return Err(Refusal::RuleOfOtherCode);
    }
    if buffer.len() < 16 + code.sizes.table() + costs_length(rule) {
        return Err(Refusal::FileTooShort);
    }
    Ok(put_file(code, rule, buffer))
}
