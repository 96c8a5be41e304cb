// Long scripts.

/// 60 rows get an index, and 31 of them other keys before it is built: each then has two entries, one of them marked.
pub(crate) const FILLING: &str = "\
    begin\ninsert 1 =0 =\ninsert 1 =1 =\ninsert 1 =2 =\ninsert 1 =3 =\ninsert 1 =4 =\ninsert 1 =5 =\ninsert 1 =6 =\n\
    insert 1 =7 =\ninsert 1 =8 =\ninsert 1 =9 =\ninsert 1 =10 =\ninsert 1 =11 =\ninsert 1 =12 =\ninsert 1 =13 =\n\
    insert 1 =14 =\ninsert 1 =15 =\ninsert 1 =16 =\ninsert 1 =17 =\ninsert 1 =18 =\ninsert 1 =19 =\ninsert 1 =20 =\n\
    insert 1 =21 =\ninsert 1 =22 =\ninsert 1 =23 =\ninsert 1 =24 =\ninsert 1 =25 =\ninsert 1 =26 =\ninsert 1 =27 =\n\
    insert 1 =28 =\ninsert 1 =29 =\ninsert 1 =30 =\ninsert 1 =31 =\ninsert 1 =32 =\ninsert 1 =33 =\ninsert 1 =34 =\n\
    insert 1 =35 =\ninsert 1 =36 =\ninsert 1 =37 =\ninsert 1 =38 =\ninsert 1 =39 =\ninsert 1 =40 =\ninsert 1 =41 =\n\
    insert 1 =42 =\ninsert 1 =43 =\ninsert 1 =44 =\ninsert 1 =45 =\ninsert 1 =46 =\ninsert 1 =47 =\ninsert 1 =48 =\n\
    insert 1 =49 =\ninsert 1 =50 =\ninsert 1 =51 =\ninsert 1 =52 =\ninsert 1 =53 =\ninsert 1 =54 =\ninsert 1 =55 =\n\
    insert 1 =56 =\ninsert 1 =57 =\ninsert 1 =58 =\ninsert 1 =59 =\ncommit 1\ncreate\nbegin\nupdate 2 0.0 =u0 =\n\
    step 2\nstep 2\ncommit 2\nbegin\nupdate 3 0.1 =u1 =\nstep 3\nstep 3\ncommit 3\nbegin\nupdate 4 0.2 =u2 =\n\
    step 4\nstep 4\ncommit 4\nbegin\nupdate 5 0.3 =u3 =\nstep 5\nstep 5\ncommit 5\nbegin\nupdate 6 0.4 =u4 =\n\
    step 6\nstep 6\ncommit 6\nbegin\nupdate 7 0.5 =u5 =\nstep 7\nstep 7\ncommit 7\nbegin\nupdate 8 0.6 =u6 =\n\
    step 8\nstep 8\ncommit 8\nbegin\nupdate 9 0.7 =u7 =\nstep 9\nstep 9\ncommit 9\nbegin\nupdate 10 0.8 =u8 =\n\
    step 10\nstep 10\ncommit 10\nbegin\nupdate 11 0.9 =u9 =\nstep 11\nstep 11\ncommit 11\nbegin\n\
    update 12 0.10 =u10 =\nstep 12\nstep 12\ncommit 12\nbegin\nupdate 13 0.11 =u11 =\nstep 13\nstep 13\ncommit 13\n\
    begin\nupdate 14 0.12 =u12 =\nstep 14\nstep 14\ncommit 14\nbegin\nupdate 15 0.13 =u13 =\nstep 15\nstep 15\n\
    commit 15\nbegin\nupdate 16 0.14 =u14 =\nstep 16\nstep 16\ncommit 16\nbegin\nupdate 17 0.15 =u15 =\nstep 17\n\
    step 17\ncommit 17\nbegin\nupdate 18 0.16 =u16 =\nstep 18\nstep 18\ncommit 18\nbegin\nupdate 19 0.17 =u17 =\n\
    step 19\nstep 19\ncommit 19\nbegin\nupdate 20 0.18 =u18 =\nstep 20\nstep 20\ncommit 20\nbegin\n\
    update 21 0.19 =u19 =\nstep 21\nstep 21\ncommit 21\nbegin\nupdate 22 0.20 =u20 =\nstep 22\nstep 22\ncommit 22\n\
    begin\nupdate 23 0.21 =u21 =\nstep 23\nstep 23\ncommit 23\nbegin\nupdate 24 0.22 =u22 =\nstep 24\nstep 24\n\
    commit 24\nbegin\nupdate 25 0.23 =u23 =\nstep 25\nstep 25\ncommit 25\nbegin\nupdate 26 0.24 =u24 =\nstep 26\n\
    step 26\ncommit 26\nbegin\nupdate 27 0.25 =u25 =\nstep 27\nstep 27\ncommit 27\nbegin\nupdate 28 0.26 =u26 =\n\
    step 28\nstep 28\ncommit 28\nbegin\nupdate 29 0.27 =u27 =\nstep 29\nstep 29\ncommit 29\nbegin\n\
    update 30 0.28 =u28 =\nstep 30\nstep 30\ncommit 30\nbegin\nupdate 31 0.29 =u29 =\nstep 31\nstep 31\ncommit 31\n\
    begin\nupdate 32 0.30 =u30 =\nstep 32\nstep 32\ncommit 32\nbuild 4\nclean 99\nbuild\n";

/// There are more rows than the least index has places.
pub(crate) const MANY: &str = "\
    begin\ninsert 1 =0 =\ninsert 1 =1 =\ninsert 1 =2 =\ninsert 1 =3 =\ninsert 1 =4 =\ninsert 1 =5 =\ninsert 1 =6 =\n\
    insert 1 =7 =\ninsert 1 =8 =\ninsert 1 =9 =\ninsert 1 =10 =\ninsert 1 =11 =\ninsert 1 =12 =\ninsert 1 =13 =\n\
    insert 1 =14 =\ninsert 1 =15 =\ninsert 1 =16 =\ninsert 1 =17 =\ninsert 1 =18 =\ninsert 1 =19 =\ninsert 1 =20 =\n\
    insert 1 =21 =\ninsert 1 =22 =\ninsert 1 =23 =\ninsert 1 =24 =\ninsert 1 =25 =\ninsert 1 =26 =\ninsert 1 =27 =\n\
    insert 1 =28 =\ninsert 1 =29 =\ninsert 1 =30 =\ninsert 1 =31 =\ninsert 1 =32 =\ninsert 1 =33 =\ninsert 1 =34 =\n\
    insert 1 =35 =\ninsert 1 =36 =\ninsert 1 =37 =\ninsert 1 =38 =\ninsert 1 =39 =\ninsert 1 =40 =\ninsert 1 =41 =\n\
    insert 1 =42 =\ninsert 1 =43 =\ninsert 1 =44 =\ninsert 1 =45 =\ninsert 1 =46 =\ninsert 1 =47 =\ninsert 1 =48 =\n\
    insert 1 =49 =\ninsert 1 =50 =\ninsert 1 =51 =\ninsert 1 =52 =\ninsert 1 =53 =\ninsert 1 =54 =\ninsert 1 =55 =\n\
    insert 1 =56 =\ninsert 1 =57 =\ninsert 1 =58 =\ninsert 1 =59 =\ncommit 1\nbegin\ninsert 2 =60 =\ninsert 2 =61 =\n\
    insert 2 =62 =\ninsert 2 =63 =\ninsert 2 =64 =\ninsert 2 =65 =\ncommit 2\n";
