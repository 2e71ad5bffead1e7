// The file of a direct sharing: what it is made of, its length, and writing it.
ghost use Rattle.std.specs.Prelude.{◌≡◌, ◌+◌, ◌^◌, ◌≤◌, length, get_or};

use design::{Head, TermList};
use direct::{MOST_TERMS, Rule};
use finite::power;
use records::{RECORD_HEAD_SIZE, TERM_SIZE, Writer, record_size};

// A file that is not written yet: the rule, the table of the box, and the coefficient words of the box.
#[derive(Clone, Copy)]
pub struct DirectFile<'a> {
    pub rule: Rule<'a>,
    pub table: &'a [u8],
    pub words: &'a [u8],
    pub ghost sizes: { (length table.now ≡ 2 ^ rule.m) × (2 ^ rule.m ≤ length words.now) },
}

impl DirectFile<'_> {
    ghost use Rattle.records.specs.Encode.{lists_bytes};
    ghost use Rattle.records.specs.Inside.Writes.{Room, Writes};
    ghost use Rattle.producer.specs.Producing.{terms_count, produced_length};
    ghost use Rattle.producer.specs.Inside.Filing.{terms_bound};
    ghost use Rattle.producer.specs.Inside.Made.{lists_of, made};

    // How many terms the lists have together: s^d for each term of d variables in each bit that has it, whatever the placement is.
    fn terms(&self) -> usize
        ensures { (result ≡ terms_count self.now.rule.m self.now.rule.s (λ u. get_or self.now.words.now u 0)) × (result ≤ terms_bound) }
    {
        let mut terms = 0;
        for (u, word) in self.words[..power(self.rule.m)].iter().enumerate() {
            terms += self.rule.s.pow((u as u32).count_ones()) * word.count_ones() as usize;
        }
        terms
    }

    // How many bytes the file takes: the head, S and G, the lists, the end.
    pub fn size(&self) -> usize
        ensures { result ≡ produced_length self.now.rule.m self.now.rule.s (λ u. get_or self.now.words.now u 0) }
    {
        let tables = record_size(Head::SIZE) + 2 * record_size(self.table.len());
        let lists = RECORD_HEAD_SIZE * (self.rule.m * self.rule.s) + TERM_SIZE * self.terms();
        tables + lists + record_size(0)
    }

    // Writes the records of the lists.
    fn put_lists(&self, writer: &mut Writer<'_>)
        requires { Room writer.old (lists_bytes (lists_of self.now)) }
        ensures { Writes writer.old writer.new (lists_bytes (lists_of self.now)) }
    {
        let mut list: TermList<MOST_TERMS> = TermList::new();
        for i in 0..self.rule.m * self.rule.s {
            self.rule
                .gather(self.words, i / self.rule.m, i % self.rule.m, &mut list);
            writer.list(list.as_slice());
        }
    }

    // Writes the file.
    pub fn put(&self, writer: &mut Writer<'_>)
        requires { Room writer.old (made self.now) }
        ensures { Writes writer.old writer.new (made self.now) }
    {
        writer.front(self.rule.m, self.rule.s, 1, self.table);
        writer.table(self.table);
        self.put_lists(writer);
        writer.end();
    }
}
