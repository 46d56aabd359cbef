// One theorem for each shape of call on a lent record: it loads what is lent, makes one call by value and stores what that hands on. What it
// answers and leaves is then what the call answered, whatever the record and the values are. Each theorem is a function's contract.
// Where the call may refuse, the record that it hands on is stored all the same, and each value only where it is taken.
#![tactic(auto)]

ghost use Rattle.std.specs.Prelude.{◌≡◌, ◌⊎◌, Ok, Err};

// What a call answers that leaves a record alone: the refusal, and the record.
#[derive(Clone, Copy, Drop)]
pub struct Record<R> {
    pub refusal: u32,
    pub next: R,
}

// A value beside the refusal.
#[derive(Clone, Copy, Drop)]
pub struct Value<Q> {
    pub refusal: u32,
    pub out: Q,
}

// A value and the record.
#[derive(Clone, Copy, Drop)]
pub struct OneValue<Q, R> {
    pub refusal: u32,
    pub out: Q,
    pub next: R,
}

// Two values and the record.
#[derive(Clone, Copy, Drop)]
pub struct TwoValues<P, Q, R> {
    pub refusal: u32,
    pub one: P,
    pub two: Q,
    pub next: R,
}

// What a call answers, or why it is refused; and the record after it.
#[derive(Clone, Copy, Drop)]
pub struct After<V, E, R> {
    pub answer: Result<V, E>,
    pub next: R,
}

// Two values that a call answers.
#[derive(Clone, Copy, Drop)]
pub struct Both<P, Q> {
    pub one: P,
    pub two: Q,
}

// A call that fills a lent record from a number and a slice, or refuses and leaves it.
pub fn fills_record<R: Copy, A: Drop, T, G: Fn(R, A, &[T]) -> Record<R>>(
    g: &G,
    held: &mut R,
    a: A,
    table: &[T],
) -> u32
    requires { G.pre g.now held.old a table }
    ensures { G.post g.now held.old a table.entry (record { refusal = result; next = held.new }) }
{
    let after = g(*held, a, table);
    *held = after.next;
    after.refusal
}

// A call on a lent record with two numbers in and one value out.
pub fn one_value_out<R: Copy, Q: Copy, A: Drop, B: Drop, G: Fn(R, A, B, Q) -> OneValue<Q, R>>(
    g: &G,
    held: &mut R,
    a: A,
    b: B,
    out: &mut Q,
) -> u32
    requires { G.pre g.now held.old a b out.old }
    ensures { G.post g.now held.old a b out.old (record { refusal = result; out = out.new; next = held.new }) }
{
    let after = g(*held, a, b, *out);
    *held = after.next;
    *out = after.out;
    after.refusal
}

// A call on a lent record with two numbers in and two values out.
pub fn two_values_out<
    R: Copy,
    P: Copy,
    Q: Copy,
    A: Drop,
    B: Drop,
    G: Fn(R, A, B, P, Q) -> TwoValues<P, Q, R>,
>(g: &G, held: &mut R, a: A, b: B, one: &mut P, two: &mut Q) -> u32
    requires { G.pre g.now held.old a b one.old two.old }
    ensures { G.post g.now held.old a b one.old two.old (record { refusal = result; one = one.new; two = two.new; next = held.new }) }
{
    let after = g(*held, a, b, *one, *two);
    *held = after.next;
    *one = after.one;
    *two = after.two;
    after.refusal
}

// A call that reads a lent record, fills a lent buffer and leaves a value beside it.
pub fn fills_buffer<R: Copy, Q: Copy, T, G: Fn(R, &mut [T], Q) -> Value<Q>>(
    g: &G,
    held: &R,
    buf: &mut [T],
    out: &mut Q,
) -> u32
    requires { (b : _) → b.now ≡ buf.old → G.pre g.now held.now b out.old }
    ensures { (b : _) × (b' : _) × (b.now ≡ buf.old) × (b'.now ≡ buf.new)
        × G.post g.now held.now b out.old (record { refusal = result; out = out.new }) b' }
{
    let after = g(*held, buf, *out);
    *out = after.out;
    after.refusal
}

// A call on a lent record with two numbers in: its value is stored if it is taken; of a refusal the number is answered, and the value stays.
pub fn one_value_if_taken<
    R: Copy,
    Q: Copy,
    E,
    A: Drop,
    B: Drop,
    G: Fn(R, A, B) -> After<Q, E, R>,
    N: Fn(E) -> u32,
>(g: &G, number: &N, held: &mut R, a: A, b: B, out: &mut Q) -> u32
    requires call { G.pre g.now held.old a b }
    requires number { (x : _) (e : _) → G.post g.now held.old a b x → x.answer ≡ Err e → N.pre number.now e }
    ensures { (G.post g.now held.old a b (record { answer = Ok out.new; next = held.new }) × (result ≡ 0))
        ⊎ ((e : _) × G.post g.now held.old a b (record { answer = Err e; next = held.new })
        × N.post number.now e result × (out.new ≡ out.old)) }
{
    let After { answer, next } = g(*held, a, b);
    *held = next;
    match answer {
        Ok(value) => {
            *out = value;
            0
        }
        Err(reason) => number(reason),
    }
}

// A call on a lent record with two numbers in: its two values are stored if it is taken; of a refusal the number is answered, and both stay.
pub fn two_values_if_taken<
    R: Copy,
    P: Copy,
    Q: Copy,
    E,
    A: Drop,
    B: Drop,
    G: Fn(R, A, B) -> After<Both<P, Q>, E, R>,
    N: Fn(E) -> u32,
>(g: &G, number: &N, held: &mut R, a: A, b: B, one: &mut P, two: &mut Q) -> u32
    requires call { G.pre g.now held.old a b }
    requires number { (x : _) (e : _) → G.post g.now held.old a b x → x.answer ≡ Err e → N.pre number.now e }
    ensures { (G.post g.now held.old a b (record { answer = Ok (record { one = one.new; two = two.new }); next = held.new }) × (result ≡ 0))
        ⊎ ((e : _) × G.post g.now held.old a b (record { answer = Err e; next = held.new })
        × N.post number.now e result × (one.new ≡ one.old) × (two.new ≡ two.old)) }
{
    let After { answer, next } = g(*held, a, b);
    *held = next;
    match answer {
        Ok(both) => {
            *one = both.one;
            *two = both.two;
            0
        }
        Err(reason) => number(reason),
    }
}

// A call that reads a lent record and fills a lent buffer: the length, as another type, is stored if it is taken; else it stays.
pub fn fills_buffer_if_taken<
    R: Copy,
    Q: Copy,
    L,
    E,
    T,
    G: Fn(R, &mut [T]) -> Result<L, E>,
    C: Fn(L) -> Q,
    N: Fn(E) -> u32,
>(g: &G, convert: &C, number: &N, held: &R, buf: &mut [T], out: &mut Q) -> u32
    requires call { (b : _) → b.now ≡ buf.old → G.pre g.now held.now b }
    requires convert { (b : _) (b' : _) (l : _) → b.now ≡ buf.old → G.post g.now held.now b (Ok l) b' → C.pre convert.now l }
    requires number { (b : _) (b' : _) (e : _) → b.now ≡ buf.old → G.post g.now held.now b (Err e) b' → N.pre number.now e }
    ensures { ((b : _) × (b' : _) × (l : _) × (b.now ≡ buf.old) × (b'.now ≡ buf.new)
        × G.post g.now held.now b (Ok l) b' × C.post convert.now l out.new × (result ≡ 0))
        ⊎ ((b : _) × (b' : _) × (e : _) × (b.now ≡ buf.old) × (b'.now ≡ buf.new)
        × G.post g.now held.now b (Err e) b' × N.post number.now e result × (out.new ≡ out.old)) }
{
    match g(*held, buf) {
        Ok(length) => {
            *out = convert(length);
            0
        }
        Err(refused) => number(refused),
    }
}
