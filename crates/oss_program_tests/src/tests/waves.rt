//! Programs that are stepped wave by wave, and what is done in each wave: which tasks act, how often each, and
//! which cells are given up behind it. This was worked out by hand from the definitions of acts, waves and
//! passes.

/// One task hands a number to the next.
pub(crate) const FLOW: &str = "long x, y;
int main() {
#pragma oss task out(x)
  x = 5;
#pragma oss task in(x) out(y)
  y = x + 1;
#pragma oss taskwait
  printf(\"%ld\\n\", y);
}
";

/// Its waves.
pub(crate) const FLOW_WAVES: &str = "# wave 1
step 0 5
# wave 2
step 0.0 3
let 0.0 0 1
# wave 3
step 0.1 4
let 0.1 0 2
# wave 4
step 0 5
# tasks 3 waves 4 widest 1
";

/// A task with a weak access gives up its cells at its end, before its children act.
pub(crate) const WEAK: &str = "long a[4];
int main() {
#pragma oss task weakinout(a)
  {
#pragma oss task out(a[0;2])
    { a[0] = 1; a[1] = 2; }
#pragma oss task out(a[2;2])
    { a[2] = 3; a[3] = 4; }
  }
#pragma oss taskwait
  printf(\"%ld\\n\", a[0] + a[1] + a[2] + a[3]);
}
";

/// Its waves.
pub(crate) const WEAK_WAVES: &str = "# wave 1
step 0 3
# wave 2
step 0.0 5
let 0.0 0 4
# wave 3
step 0.0.0 5
step 0.0.1 5
let 0.0.0 0 2
let 0.0.1 2 2
# wave 4
step 0 8
# tasks 4 waves 4 widest 2
";

/// With the clause `wait` it gives them up when its children are complete.
pub(crate) const WEAK_WAIT: &str = "long a[4];
int main() {
#pragma oss task weakinout(a) wait
  {
#pragma oss task out(a[0;2])
    { a[0] = 1; a[1] = 2; }
#pragma oss task out(a[2;2])
    { a[2] = 3; a[3] = 4; }
  }
#pragma oss taskwait
  printf(\"%ld\\n\", a[0] + a[1] + a[2] + a[3]);
}
";

/// Its waves.
pub(crate) const WEAK_WAIT_WAVES: &str = "# wave 1
step 0 3
# wave 2
step 0.0 5
# wave 3
step 0.0.0 5
step 0.0.1 5
let 0.0.0 0 2
let 0.0.1 2 2
let 0.0 0 4
# wave 4
step 0 8
# tasks 4 waves 4 widest 2
";

/// The slots of a reduction are joined in one pass, in the order of their tasks.
pub(crate) const REDUCTION: &str = "unsigned long s;
int main() {
  for (long i = 0; i < 4; i++) {
#pragma oss task reduction(+: s)
    s += 9223372036854775808UL;
  }
#pragma oss task in(s)
  printf(\"%lu\\n\", s);
}
";

/// Its waves.
pub(crate) const REDUCTION_WAVES: &str = "# wave 1
step 0 22
# wave 2
step 0.0 3
step 0.1 3
step 0.2 3
step 0.3 3
join 0.0 0 1
join 0.1 0 1
join 0.2 0 1
join 0.3 0 1
# wave 3
step 0.4 4
let 0.4 0 1
# tasks 6 waves 3 widest 4
";

/// What a task has released is given up behind its wave.
pub(crate) const RELEASE: &str = "long a[4], b;
int main() {
#pragma oss task out(a)
  {
    a[0] = 1; a[1] = 2;
#pragma oss release out(a[0:1])
#pragma oss taskwait
    a[2] = 3;
  }
#pragma oss task in(a[0;2]) out(b)
  b = a[0] + a[1];
}
";

/// Its waves.
pub(crate) const RELEASE_WAVES: &str = "# wave 1
step 0 5
# wave 2
step 0.0 7
let 0.0 0 2
# wave 3
step 0.0 4
step 0.1 5
let 0.0 2 2
let 0.1 0 2
let 0.1 4 1
# tasks 3 waves 3 widest 2
";

/// One task has 4,097 ticks and its end; the other has 4,096 ticks, a store and its end.
pub(crate) const QUOTA: &str = "long x;
int main() {
#pragma oss task
  for (long k = 0; k < 2047; k++) { }
#pragma oss task out(x)
  { x = 1; for (long k = 0; k < 2046; k++) { } }
}
";

/// Its waves.
pub(crate) const QUOTA_WAVES: &str = "# wave 1
step 0 5
# wave 2
step 0.0 4096
step 0.1 4098
let 0.1 0 1
# wave 3
step 0.0 2
# tasks 3 waves 3 widest 2
";

/// A task waits three times: each wait is the first act of its wave.
pub(crate) const WAITS: &str = "long x;
int main() {
#pragma oss task inout(x)
  {
#pragma oss taskwait
#pragma oss task inout(x)
    x = 1;
#pragma oss taskwait
#pragma oss taskwait
    x = x + 1;
  }
}
";

/// Its waves.
pub(crate) const WAITS_WAVES: &str = "# wave 1
step 0 3
# wave 2
step 0.0 1
# wave 3
step 0.0 4
# wave 4
step 0.0.0 3
let 0.0.0 0 1
# wave 5
step 0.0 2
# wave 6
step 0.0 5
let 0.0 0 1
# tasks 3 waves 6 widest 1
";

/// Two tasks write neighbouring cells of one array in one wave.
pub(crate) const NEIGHBOURS: &str = "long a[4];
int main() {
#pragma oss task out(a[0;2])
  { a[1] = 1; a[0] = 2; }
#pragma oss task out(a[2;2])
  { a[2] = 3; a[3] = 4; }
}
";

/// Its waves.
pub(crate) const NEIGHBOURS_WAVES: &str = "# wave 1
step 0 5
# wave 2
step 0.0 5
step 0.1 5
let 0.0 0 2
let 0.1 2 2
# tasks 3 waves 2 widest 2
";

/// Each task waits for the one before it, and main for all: behind each round one is awake.
pub(crate) const CHAIN: &str = "long x;
int main() {
  for (long i = 0; i < 3; i++) {
#pragma oss task inout(x)
    x += 1;
  }
#pragma oss taskwait
}
";

/// Two readers wait for one writer, and another writer for them.
pub(crate) const READERS: &str = "long x;
int main() {
#pragma oss task out(x)
  x = 1;
  for (long i = 0; i < 2; i++) {
#pragma oss task in(x)
    printf(\"%ld\\n\", x);
  }
#pragma oss task inout(x)
  x += 1;
#pragma oss taskwait
}
";
