// Good texts to be damaged.
pub const SAMPLES: [&str; 3] = [
    "# three sessions\nreclaimer hazard\nsessions 3\ncells 2\nitems numbers 7 9\ninsert 0 0\nfinish 0\ndelete 0 0\nsteps 0 6\ndelete 1 0\nfinish 1\ninsert 2 1\nfinish 2\nfinish 0\n",
    "items bytes \"MSCU7\" \"mscu 9\" x00ff \"\" x   # byte strings\r\ncells 256\r\nsessions 8\r\nreclaimer epoch\r\npush 7 4\r\nstep 7\r\nstep 7\r\npop 0\r\nfinish 0\r\ntidy",
    "reclaimer quiescent\n\n\tsessions 4 # tabs\n  cells 16\nitems numbers 0 4294967295 00017\n0x20000000\n0xA1000000\ncontains 3 2\nsteps 3 1000000\nsteps 3 0\n",
];
