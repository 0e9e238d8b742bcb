// The public calls on word lists: each prints its name, its answer and whether the lists lent to it were kept.
// A list that a call fills stands in a function of its own, with room for K = 1,441 at N = 1, a record's for kind 7.
use trial::content::LENT_WORD;
use trial::{content, line, say};

// A case: what is told of it, its lists, and how long the lists are that its calls are lent to fill.
#[derive(Clone, Copy)]
pub struct Case<'a> {
    pub told: &'a [u8],
    pub corridor: &'a [u32],
    pub demands: &'a [u32],
    pub plan: &'a [u32],
    pub record: &'a [u32],
    pub record_length: usize,
    pub plan_length: usize,
}

impl<'a> Case<'a> {
    // Simulate, convert (a check too), find (a search) and normal make one call, lent is a normal form with its work record, and all makes every call.
    pub fn run(self) {
        match content::item(self.told, 0) {
            b's' => self.simulated(),
            b'c' => {
                self.checked();
                self.converted();
            }
            b'f' => self.searched(),
            b'n' | b'l' => self.normal(),
            _ => {
                self.simulated();
                say::comma();
                self.checked();
                self.converted();
                say::comma();
                self.normal();
                say::comma();
                self.searched();
            }
        }
    }

    // The words that a call filled, if the case is of that call: from one told number up to another, or all.
    fn say_filled(self, call: u8, name: &[u8], list: &[u32], width: usize) {
        if content::item(self.told, 0) != call {
            return;
        }
        let mut ends = [0, u32::MAX];
        line::change(&mut ends, b' ', self.told);
        let [from, to] = ends;
        say::text(name);
        say::words(
            content::part_from(content::part(list, to as usize), from as usize),
            width,
        );
    }

    // The words of each row of a record that a call filled, 4 in kind 3 and 5 in kind 7: its length divided by its rows, one for each
    // state and node. The cost's two words are fewer than the rows, so they leave the quotient as it is.
    fn row_words(self, record: &[u32]) -> usize {
        let nodes = content::item(self.corridor, 0) as usize + 1;
        let states = content::item(self.demands, 0) as usize + 1;
        record.len() / nodes / states
    }

    fn simulated(self) {
        let mut room = [LENT_WORD; 14422];
        let lent = content::lent_part(&mut room, self.record_length);
        let answer = simulate::simulate(self.corridor, self.demands, self.plan, lent);
        say::text(b" simulate ");
        say::answer(answer);
        content::say_kept(lent, LENT_WORD);
        self.say_filled(b's', b", record", lent, self.row_words(lent));
    }

    fn checked(self) {
        let answer = convert::check(self.corridor, self.demands, self.record);
        say::text(b" check ");
        say::answer(answer);
        say::comma();
    }

    fn converted(self) {
        let mut room = [LENT_WORD; 5764];
        let lent = content::lent_part(&mut room, self.plan_length);
        let answer = convert::convert(self.corridor, self.demands, self.record, lent);
        say::text(b" convert ");
        say::answer(answer);
        content::say_kept(lent, LENT_WORD);
        self.say_filled(b'c', b", plan", lent, 2);
    }

    // The step, the node and the length of the lent list are 0, 0 and 3, or what the case tells.
    fn searched(self) {
        let mut at = [0u32, 0, 3];
        line::change(&mut at, b'a', self.told);
        let [step, node, length] = at;
        let mut room = [LENT_WORD; 6];
        let lent = content::lent_part(&mut room, length as usize);
        let answer = search::search(self.corridor, self.demands, self.record, step, node, lent);
        say::text(b" search ");
        say::answer(answer);
        content::say_kept(lent, LENT_WORD);
        if answer.is_ok() {
            self.say_filled(b'f', b", tries, found and rate", lent, 3);
        }
    }

    fn normal(self) {
        let mut room = [LENT_WORD; 14422];
        let work = content::lent_part(&mut room, self.record_length);
        self.normal_form(work);
        self.say_filled(b'l', b", work record", work, self.row_words(work));
    }

    // The work record first, then the plan.
    fn normal_form(self, work: &mut [u32]) {
        let mut room = [LENT_WORD; 5764];
        let lent = content::lent_part(&mut room, self.plan_length);
        let answer = convert::normal_form(self.corridor, self.demands, self.plan, work, lent);
        say::text(b" normal form ");
        say::answer(answer);
        content::say_kept(work, LENT_WORD);
        content::say_kept(lent, LENT_WORD);
        self.say_filled(b'n', b", plan", lent, 2);
    }
}
