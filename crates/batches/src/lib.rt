// The batches of a semaphore, after `PermitClocks` of Shuttle's future/batch_semaphore.rs: where the ring stands by value; sizes, clocks
// and the clock of the last taking in arrays that the caller lends.
#![tactic(auto)]

ghost use Rattle.std.specs.Prelude.{◌≡◌, false, not, ◌||◌, List, ◌∷◌, [], ◌++◌, ℕ, ◌+◌, ◌*◌, ◌≤◌, ◌<◌, eqb, length, None};
ghost use Rattle.std.proofs.Math.Seq.{paste};
ghost use Rattle.rules.specs.Sizes.{batch_count, width};
ghost use Rattle.rules.specs.Clock.{Clock, empty, join};
ghost use Rattle.rules.specs.Fresh.{first_batch};
ghost use Rattle.rules.specs.Taking.{eat, standing_of};
ghost use Rattle.rules.specs.Refusals.{full};
ghost use Rattle.rules.specs.Broken.{any_of, is_empty_batch, total};
ghost use Rattle.tables.specs.Table.{row};
ghost use Rattle.batches.specs.View.{batches_of, ring_of, Lent, WellFormed, Holds, Ate, stands_in, Stood, Fed, Took};
ghost use Rattle.batches.specs.Broken.{permits_of, broken_batches};

use clock::VectorClock;

// Where the batches stand in the ring of 64 places: the size and the clock of the batch at place p are sizes[p] and row p of rows. Any places
// may be handed in: 14 sees what no ring has.
#[derive(Clone, Copy)]
pub struct PermitClocks {
    pub head: u32,
    pub count: u32,
}

// Set up or not.
#[derive(Clone, Copy)]
pub struct Batches {
    pub permit_clocks: Option<PermitClocks>,
}

// The ring that is left, and the join of the clocks of the batches touched.
#[derive(Clone, Copy)]
struct Consumed {
    pub permit_clocks: PermitClocks,
    pub clock: VectorClock,
}

// The batches after a taking, and the clock that its taker joins.
#[derive(Clone, Copy)]
pub struct Eaten {
    pub batches: Batches,
    pub clock: VectorClock,
}

// The clock in a row of clocks that stand flat.
pub fn clock_at(flat: &[u32], place: usize) -> VectorClock
    requires { place * width + width ≤ length flat.now }
    ensures { result.0 ≡ row width flat.now place }
{
    VectorClock(tables::row(flat, place))
}

// A row becomes the clock.
pub fn store_clock(flat: &mut [u32], place: usize, clock: VectorClock)
    requires { place * width + width ≤ length flat.old }
    ensures { flat.new ≡ paste flat.old (place * width) clock.0 width }
{
    tables::store(flat, place, clock.0);
}

// A row is joined with the clock.
pub fn join_row(flat: &mut [u32], place: usize, clock: VectorClock)
    requires { place * width + width ≤ length flat.old }
    ensures { flat.new ≡ paste flat.old (place * width) (join (row width flat.old place) clock.0) width }
{
    store_clock(flat, place, clock_at(flat, place).update(clock));
}

impl PermitClocks {
    // The places of the ring.
    pub const PLACES: u32 = 64;

    // One batch more, at the back.
    fn push_back(
        self,
        sizes: &mut [u32],
        rows: &mut [u32],
        size: u32,
        clock: VectorClock,
    ) -> PermitClocks
        requires { (Lent sizes.old rows.old) × (self.head < batch_count) × (self.count < batch_count) }
        ensures { Holds (ring_of result sizes.new rows.new) (batches_of (ring_of self sizes.old rows.old) ++ record { size = size; clock = clock.0 } ∷ []) }
    {
        let mut out = self;
        let place = ((out.head + out.count) % PermitClocks::PLACES) as usize;
        sizes[place] = size;
        store_clock(rows, place, clock);
        out.count += 1;
        out
    }

    // A ring of one batch with the clock, unless it is of nothing.
    fn first(sizes: &mut [u32], rows: &mut [u32], size: u32, clock: VectorClock) -> PermitClocks
        requires { Lent sizes.old rows.old }
        ensures { Holds (ring_of result sizes.new rows.new) (first_batch size clock.0) }
    {
        let none = PermitClocks { head: 0, count: 0 };
        if size == 0 {
            return none;
        }
        none.push_back(sizes, rows, size, clock)
    }

    // The front batches that hold n permits are consumed, the last of them in part; their clocks are joined. Batches go, and none is counted.
    fn consume(self, sizes: &mut [u32], rows: &[u32], n: u32) -> Consumed
        requires { (Lent sizes.old rows.now) × (self.head < batch_count) × (self.count ≤ batch_count) }
        ensures { Ate (ring_of result.permit_clocks sizes.new rows.now) result.clock (eat (batches_of (ring_of self sizes.old rows.now)) n (empty width)) }
    {
        let mut out = self;
        let mut acc = VectorClock::new();
        let mut left = n;
        while 0 < left && 0 < out.count {
            let head = out.head as usize;
            let size = sizes[head];
            acc = acc.update(clock_at(rows, head));
            if left < size {
                sizes[head] = size - left;
                left = 0;
            } else {
                left -= size;
                out.head = (out.head + 1) % PermitClocks::PLACES;
                out.count -= 1;
            }
        }
        Consumed {
            permit_clocks: out,
            clock: acc,
        }
    }

    // Whether the batches add up to n and none is of nothing. (64 sizes of 32 bits do not pass 64.)
    fn adds_up(self, sizes: &[u32], n: u32) -> bool
        requires { (length sizes.now ≡ batch_count) × (self.head < batch_count) × (self.count ≤ batch_count) }
        ensures { (rows : List ℕ) → result ≡ not (any_of is_empty_batch (batches_of (ring_of self sizes.now rows)) || not (eqb (total (batches_of (ring_of self sizes.now rows))) n)) }
    {
        let mut sum: u64 = 0;
        for i in 0..self.count {
            let size = sizes[((self.head + i) % PermitClocks::PLACES) as usize];
            if size == 0 {
                return false;
            }
            sum += size as u64;
        }
        sum == n as u64
    }
}

impl Batches {
    // The batches of a semaphore that a task makes: set up, with the maker's clock.
    pub fn new(sizes: &mut [u32], rows: &mut [u32], stock: u32, clock: VectorClock) -> Batches
        requires { Lent sizes.old rows.old }
        ensures { Stood result sizes.new rows.new (first_batch stock clock.0) }
    {
        Batches {
            permit_clocks: Some(PermitClocks::first(sizes, rows, stock, clock)),
        }
    }

    // The batches of a semaphore that no task makes: not set up.
    pub fn const_new() -> Batches
        ensures { result.permit_clocks ≡ None }
    {
        Batches {
            permit_clocks: None,
        }
    }

    // Whether 64 batches stand.
    pub fn is_full(self) -> bool
        ensures { (sizes rows : List ℕ) → result ≡ full (stands_in self sizes rows) }
    {
        match self.permit_clocks {
            None => false,
            Some(ring) => PermitClocks::PLACES <= ring.count,
        }
    }

    // Whether refusal 14 has a ground here, whatever the fields and the sizes are.
    pub fn is_broken(self, sizes: &[u32], stock: u32) -> bool
        requires { length sizes.now ≡ batch_count }
        ensures { (rows : List ℕ) (c : Clock) → result ≡ broken_batches self (permits_of stock self sizes.now rows c) }
    {
        match self.permit_clocks {
            None => false,
            Some(ring) => {
                PermitClocks::PLACES <= ring.head
                    || PermitClocks::PLACES < ring.count
                    || !ring.adds_up(sizes, stock)
            }
        }
    }

    // The ring, set up if it was not: one batch of the whole stock with the empty clock, if the stock is positive.
    fn set_up(self, sizes: &mut [u32], rows: &mut [u32], stock: u32) -> PermitClocks
        requires { (Lent sizes.old rows.old) × (WellFormed self) }
        ensures { Holds (ring_of result sizes.new rows.new) (standing_of stock (stands_in self sizes.old rows.old)) }
    {
        match self.permit_clocks {
            None => PermitClocks::first(sizes, rows, stock, VectorClock::new()),
            Some(ring) => ring,
        }
    }

    // Set up, and n permits eaten from the front.
    fn eat(self, sizes: &mut [u32], rows: &mut [u32], stock: u32, n: u32) -> Eaten
        requires { (Lent sizes.old rows.old) × (WellFormed self) }
        ensures { Fed result sizes.new rows.new (eat (standing_of stock (stands_in self sizes.old rows.old)) n (empty width)) }
    {
        let ring = self.set_up(sizes, rows, stock);
        let consumed = ring.consume(sizes, rows, n);
        Eaten {
            batches: Batches {
                permit_clocks: Some(consumed.permit_clocks),
            },
            clock: consumed.clock,
        }
    }

    // Set up, and a batch more.
    pub fn add(
        self,
        sizes: &mut [u32],
        rows: &mut [u32],
        stock: u32,
        n: u32,
        clock: VectorClock,
    ) -> Batches
        requires { (Lent sizes.old rows.old) × (WellFormed self) × (full (stands_in self sizes.old rows.old) ≡ false) }
        ensures { Stood result sizes.new rows.new (standing_of stock (stands_in self sizes.old rows.old) ++ record { size = n; clock = clock.0 } ∷ []) }
    {
        let ring = self.set_up(sizes, rows, stock);
        Batches {
            permit_clocks: Some(ring.push_back(sizes, rows, n, clock)),
        }
    }

    // Taking n with a clock: it is joined into the last taking's, and the batches are eaten.
    pub fn take(
        self,
        sizes: &mut [u32],
        rows: &mut [u32],
        last: &mut [u32],
        stock: u32,
        n: u32,
        clock: VectorClock,
    ) -> Eaten
        requires { (Lent sizes.old rows.old) × (WellFormed self) × (length last.old ≡ width) }
        ensures { Took result sizes.new rows.new last.new (eat (standing_of stock (stands_in self sizes.old rows.old)) n (empty width)) (join (row width last.old 0) clock.0) }
    {
        join_row(last, 0, clock);
        self.eat(sizes, rows, stock, n)
    }
}
