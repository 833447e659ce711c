//! The programs that are run in orders chosen at random. Each has a few cells and some dozens of moves.

/// One task hands a number to the next.
pub(crate) const FLOW: &str = "long x, y;
int main() {
#pragma oss task out(x)
  x = 5;
#pragma oss task in(x) out(y)
  y = x + 1;
#pragma oss taskwait
  printf(\"%ld\", y);
}
";

/// Two tasks read what one has written, and a fourth reads what they write.
pub(crate) const DIAMOND: &str = "long a, b, c, d;
int main() {
#pragma oss task out(a)
  a = 1;
#pragma oss task in(a) out(b)
  b = a + 1;
#pragma oss task in(a) out(c)
  c = a + 2;
#pragma oss task in(b, c) out(d)
  d = b * c;
#pragma oss task in(d)
  printf(\"%ld\", d);
}
";

/// Each of two tasks has a loop.
pub(crate) const LOOPS: &str = "long a[2];
int main() {
  for (long k = 0; k < 2; k++) {
#pragma oss task inout(a[k])
    while (a[k] < 2) a[k] = a[k] + 1;
  }
#pragma oss taskwait
  printf(\"%ld %ld\", a[0], a[1]);
}
";

/// Two tasks read between two that write.
pub(crate) const READERS: &str = "long x, y, z;
int main() {
#pragma oss task out(x)
  x = 1;
#pragma oss task in(x) out(y)
  y = x + 1;
#pragma oss task in(x) out(z)
  z = x + 2;
#pragma oss task inout(x)
  x = x + 10;
#pragma oss taskwait
  printf(\"%ld %ld %ld\", x, y, z);
}
";

/// Tasks that wait for nothing print, at two levels.
pub(crate) const PRINTS: &str = "int main() {
  printf(\"a\");
#pragma oss task
  {
    printf(\"b\");
#pragma oss task
    printf(\"c\");
    printf(\"d\");
  }
  printf(\"e\");
#pragma oss task
  printf(\"f\");
}
";

/// Main waits for a task with a false `if`, and not for one with a true one.
pub(crate) const FALSE_IF: &str = "long x, y;
int main() {
#pragma oss task inout(x) if(0)
  x = 7;
#pragma oss task inout(y) if(x) label(second) priority(3)
  y = 8;
  printf(\"%ld \", x);
#pragma oss taskwait
  printf(\"%ld\", y);
}
";

/// Main waits for one task, and then for the other.
pub(crate) const WAIT_ON: &str = "long x, y;
int main() {
#pragma oss task out(x)
  x = 3;
#pragma oss task out(y)
  y = 4;
#pragma oss taskwait on(x)
  printf(\"%ld \", x);
#pragma oss taskwait on(y)
  printf(\"%ld\", y);
}
";

/// Sections of an array of two dimensions.
pub(crate) const GRID: &str = "long m[2][3], t;
int main() {
#pragma oss task out(m[0:1][1;2])
  { m[0][1] = 1; m[0][2] = 2; m[1][1] = 3; m[1][2] = 4; }
#pragma oss task inout(m[:][0])
  { m[0][0] = 5; m[1][0] = 6; }
#pragma oss task in(m[1]) out(t)
  t = m[1][0] + m[1][1] + m[1][2];
#pragma oss taskwait
  printf(\"%ld\", t);
}
";

/// The turns of a loop are made by two tasks, which fold besides.
pub(crate) const TASK_LOOP: &str = "long a[4], s;
int main() {
#pragma oss taskloop grainsize(2) out(a[k;2]) reduction(+: s)
  for (long k = 0; k < 4; k++) { a[k] = k; s += k; }
#pragma oss taskwait
  printf(\"%ld %ld\", a[3], s);
}
";

/// Two tasks write every second cell each.
pub(crate) const EVERY_SECOND: &str = "long a[4], s;
int main() {
#pragma oss task out({ a[k * 2], k = 0; 2 })
  { a[0] = 1; a[2] = 2; }
#pragma oss task out({ a[k * 2 + 1], k = 0; 2 })
  { a[1] = 3; a[3] = 4; }
#pragma oss task in(a) out(s)
  s = a[0] + a[1] + a[2] + a[3];
#pragma oss taskwait
  printf(\"%ld\", s);
}
";

/// Two tasks add, one reads the sum, and one folds by another operator.
pub(crate) const REDUCTIONS: &str = "unsigned long s;
int main() {
  s = 1;
#pragma oss task reduction(+: s)
  s += 2;
#pragma oss task reduction(+: s)
  { s += 3; s += 4; }
#pragma oss task in(s)
  printf(\"%lu\", s);
#pragma oss task reduction(^: s)
  s ^= 5;
#pragma oss taskwait
  printf(\" %lu\", s);
}
";

/// A task with a weak reduction lets its children add, beside a task that adds.
pub(crate) const WEAK_REDUCTION: &str = "long s;
int main() {
#pragma oss task weakreduction(+: s)
  {
#pragma oss task reduction(+: s)
    s += 2;
#pragma oss task reduction(+: s)
    s += 3;
  }
#pragma oss task reduction(+: s)
  s += 4;
#pragma oss taskwait
  printf(\"%ld\", s);
}
";

/// Tasks fold into both cells of an array or into one, by two operators.
pub(crate) const OTHER_FOLDS: &str = "long a[2];
int main() {
  a[0] = 12;
#pragma oss task reduction(|: a)
  { a[0] |= 3; a[1] |= 4; }
#pragma oss task reduction(|: a[1])
  a[1] |= 8;
#pragma oss task reduction(&: a[0])
  a[0] &= 6;
#pragma oss taskwait
  printf(\"%ld %ld\", a[0], a[1]);
}
";

/// A task with a weak access lets a child write each half of an array.
pub(crate) const WEAK: &str = "long a[2];
int main() {
#pragma oss task weakinout(a)
  {
#pragma oss task out(a[0])
    a[0] = 1;
#pragma oss task out(a[1])
    a[1] = 2;
  }
#pragma oss task in(a)
  printf(\"%ld\", a[0] + a[1]);
}
";

/// The same with a clause `wait`.
pub(crate) const WEAK_WAIT: &str = "long a[2];
int main() {
#pragma oss task weakinout(a) wait
  {
#pragma oss task out(a[0])
    a[0] = 1;
#pragma oss task out(a[1])
    a[1] = 2;
  }
#pragma oss task in(a)
  printf(\"%ld\", a[0] + a[1]);
}
";

/// Tasks in tasks, of which one waits.
pub(crate) const NESTED: &str = "long x;
int main() {
#pragma oss task inout(x)
  {
    x = 1;
#pragma oss task inout(x)
    {
      x = x * 2;
#pragma oss task inout(x)
      x = x + 3;
    }
#pragma oss taskwait
    x = x * 10;
  }
#pragma oss task in(x)
  printf(\"%ld\", x);
}
";

/// A cell that no child holds any more is given up before the children that are left end.
pub(crate) const EARLY: &str = "long a[4], b;
int main() {
#pragma oss task weakinout(a)
  {
#pragma oss task inout(a[0;2])
    {
#pragma oss task inout(a[0])
      a[0] = 1;
#pragma oss taskwait
      a[1] = 2;
    }
#pragma oss task inout(a[2;2])
    { a[2] = 3; a[3] = 4; }
  }
#pragma oss task in(a[2;2]) out(b)
  b = a[2] + a[3];
#pragma oss taskwait
  printf(\"%ld\", b);
}
";

/// A task gives up two cells before its end.
pub(crate) const RELEASE: &str = "long a[4], b;
int main() {
#pragma oss task out(a)
  {
    a[0] = 1; a[1] = 2;
#pragma oss release out(a[0:1])
    a[2] = 3;
  }
#pragma oss task in(a[0;2]) out(b)
  b = a[0] + a[1];
}
";

/// A task gives up a cell that it has lent.
pub(crate) const RELEASE_OF_LENT: &str = "long a[2];
int main() {
#pragma oss task weakinout(a)
  {
#pragma oss task out(a[0])
    a[0] = 1;
#pragma oss release weakinout(a[0])
#pragma oss task out(a[1])
    a[1] = 2;
  }
#pragma oss task in(a[0])
  printf(\"%ld\", a[0]);
}
";

/// A final task includes two.
pub(crate) const INCLUDED: &str = "long s, x;
int main() {
#pragma oss task reduction(+: s) out(x) final(1)
  {
    s += 1;
#pragma oss task reduction(+: s)
    { s += 2; printf(\"i\"); }
#pragma oss task out(x)
    x = 4;
    printf(\"%ld\", x);
  }
#pragma oss task reduction(+: s)
  s += 5;
#pragma oss taskwait
  printf(\" %ld\", s);
}
";

/// Calls of a task function from a task with a weak access.
pub(crate) const FUNCTION: &str = "long a[4];
#pragma oss task inout(p[0;n])
void twice(long *p, long n) { for (long k = 0; k < n; k++) p[k] = p[k] * 2; }
int main() {
  a[0] = 1; a[2] = 3;
#pragma oss task weakinout(a)
  { twice(a, 2); twice(a + 2, 1); }
#pragma oss taskwait
  printf(\"%ld %ld\", a[0], a[2]);
}
";

/// Two tasks come to a fault.
pub(crate) const RACING_FAULTS: &str = "long a[2], b;
int main() {
#pragma oss task out(a)
  a[2] = 1;
#pragma oss task inout(b)
  b = 1 / b;
}
";

/// A child and a task behind its creator come to a fault.
pub(crate) const RACE_FROM_BELOW: &str = "long x, y;
int main() {
#pragma oss task weakin(x)
  {
    printf(\"a\");
#pragma oss task in(x)
    y = x;
    printf(\"b\");
  }
#pragma oss task inout(y)
  y = 1 % y;
}
";

/// A task that goes round for ever stands between two that end.
pub(crate) const OUT_OF_FUEL: &str = "long x;
int main() {
#pragma oss task out(x)
  x = 1;
#pragma oss task
  while (1) { }
#pragma oss task in(x)
  printf(\"%ld\", x);
}
";

/// A task reads what it may only write first.
pub(crate) const UNWRITTEN: &str = "long x, y;
int main() {
#pragma oss task out(x)
  x = 7;
  printf(\"a\");
#pragma oss task out(x) inout(y)
  y = x + 1;
}
";

/// Main writes what it has lent.
pub(crate) const LENT: &str = "long x;
int main() {
#pragma oss task out(x)
  { printf(\"t\"); x = 1; }
  printf(\"m\");
  x = 2;
}
";

/// A task names for its child what it has no right to.
pub(crate) const NOT_COVERED: &str = "long x, y;
int main() {
#pragma oss task inout(x)
  {
    x = 1;
#pragma oss task in(y)
    printf(\"%ld\", y);
  }
#pragma oss task inout(y)
  printf(\"b\");
}
";

/// A task writes what it has given up.
pub(crate) const RELEASED: &str = "long a[2];
int main() {
#pragma oss task inout(a)
  {
    a[0] = 1;
#pragma oss release inout(a[0])
    a[0] = 2;
  }
#pragma oss task in(a[0])
  printf(\"%ld\", a[0]);
}
";

/// A task shifts too far, between two that print.
pub(crate) const SHIFT_RANGE: &str = "long x;
int main() {
#pragma oss task
  printf(\"a\");
#pragma oss task inout(x)
  x = 1 << (x + 64);
#pragma oss task in(x)
  printf(\"b\");
}
";

/// A task folds by another operator than it said.
pub(crate) const BAD_REDUCTION: &str = "long s;
int main() {
#pragma oss task reduction(+: s)
  s += 3;
#pragma oss task reduction(+: s)
  { s += 4; s ^= 1; }
#pragma oss taskwait
  printf(\"%ld\", s);
}
";

/// Two clauses that cannot be joined name one cell.
pub(crate) const MIXED_ACCESS: &str = "long s;
int main() {
#pragma oss task out(s)
  s = 1;
#pragma oss task reduction(+: s) in(s)
  s += 1;
}
";
