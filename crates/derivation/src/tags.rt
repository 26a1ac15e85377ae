//! What a line of a slip is, and whether it may come here.
ghost use Rattle.std.specs.Prelude.{◌≡◌, length};
ghost use Rattle.text.specs.Lines.{fields};
ghost use Rattle.text.specs.Tags.{tag_of};
ghost use Rattle.verdict.specs.Lines.{slip_tag, width, sized, header_tag, rule_tag};

use text::{Line, Tag};
use verdict::{Header, Rule, SlipFault, SlipTag};

/// The wanted header line, with its two fields.
pub(crate) fn header_tag(wanted: Header, line: &Line) -> Result<(), SlipFault>
    ensures value { result ≡ header_tag wanted (tag_of line.now.text.now) (length (fields line.now.text.now)) line.now.number }
{
    match slip_tag(line)? {
        SlipTag::Header(header) if header == wanted => with_fields(2, line),
        _ => Err(SlipFault::OutOfOrder(line.number)),
    }
}

/// The rule of the line, with as many fields as that rule has.
pub(crate) fn rule_tag(line: &Line) -> Result<Rule, SlipFault>
    ensures value { result ≡ rule_tag (tag_of line.now.text.now) (length (fields line.now.text.now)) line.now.number }
{
    match slip_tag(line)? {
        SlipTag::Rule(rule) => {
            with_fields(width(rule), line)?;
            Ok(rule)
        }
        SlipTag::Header(_) => Err(SlipFault::OutOfOrder(line.number)),
    }
}

fn slip_tag(line: &Line) -> Result<SlipTag, SlipFault>
    ensures value { result ≡ slip_tag (tag_of line.now.text.now) line.now.number }
{
    match line.tag() {
        Some(Tag::B) => Ok(SlipTag::Header(Header::Opening)),
        Some(Tag::G) => Ok(SlipTag::Header(Header::Goal)),
        Some(Tag::H) => Ok(SlipTag::Rule(Rule::Halt)),
        Some(Tag::A) => Ok(SlipTag::Rule(Rule::Apply)),
        Some(Tag::C) => Ok(SlipTag::Rule(Rule::Compose)),
        Some(Tag::W) => Ok(SlipTag::Rule(Rule::Weaken)),
        Some(Tag::S) => Ok(SlipTag::Rule(Rule::Shrink)),
        Some(Tag::F) => Ok(SlipTag::Rule(Rule::Frame)),
        Some(Tag::N | Tag::D | Tag::E) | None => Err(SlipFault::WrongTag(line.number)),
    }
}

/// The number of fields of a rule's line.
fn width(rule: Rule) -> usize
    ensures value { result ≡ width rule }
{
    match rule {
        Rule::Halt | Rule::Compose => 1,
        Rule::Apply | Rule::Weaken | Rule::Shrink | Rule::Frame => 2,
    }
}

fn with_fields(wanted: usize, line: &Line) -> Result<(), SlipFault>
    ensures value { result ≡ sized tt wanted (length (fields line.now.text.now)) line.now.number }
{
    if line.field_count() != wanted {
        return Err(SlipFault::WrongFields(line.number));
    }
    Ok(())
}
