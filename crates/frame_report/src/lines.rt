// Lines of a text, and its deliveries.
ghost use Rattle.std.specs.Prelude.{◌≡◌};
ghost use Rattle.std.specs.Iterator.{YieldsFirstBy, item_count};
ghost use Rattle.frame_report.specs.Lines.{deliveries, line_of, lines as all_lines, rest_of};

// The most characters of a line.
pub(crate) const LINE: usize = 200;

// The first line, and what follows its end.
pub(crate) fn split_line(text: &[u8]) -> (&[u8], &[u8])
    ensures line { result.0.now ≡ line_of text.now }
    ensures rest { result.1.now ≡ rest_of text.now }
{
    match text.iter().position(|byte| *byte == b'\n') {
        Some(end) => (&text[..end], &text[end + 1..]),
        None => (text, &text[text.len()..]),
    }
}

// A delivery, as its two lines.
#[derive(Clone, Copy)]
pub(crate) struct Delivery<'a> {
    pub(crate) plan: &'a [u8],
    pub(crate) symbols: &'a [u8],
}

// The deliveries of a text.
#[derive(Drop)]
pub(crate) struct Deliveries<'a>(pub(crate) &'a [u8]);

impl<'a> Iterator for Deliveries<'a> {
    type Item = Delivery<'a>;

    ghost next_gives = { YieldsFirstBy (λ d. (d.plan.now, d.symbols.now)) (λ s. deliveries (all_lines s.0.now)) };

    ghost remaining = { item_count (λ s. deliveries (all_lines s.0.now)) };

    fn next(&mut self) -> Option<Delivery<'a>> {
        if self.0.is_empty() {
            return None;
        }
        let (plan, second) = split_line(self.0);
        let (symbols, rest) = split_line(second);
        self.0 = rest;
        Some(Delivery { plan, symbols })
    }
}
