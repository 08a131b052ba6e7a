//! Requests over models with more types, more hierarchies and more custom aggregates.

/// Requests over items, shops and people that have a typing.
pub(crate) const TYPED: &str = r"
// Scales: whole numbers stay whole, a decimal of scale 0 does not.
Items?$apply=compute(Weight add Code as A,Code mul Code as B,Weight mul Ratio as C,Price add Ratio as D,Price mul Weight as E,Ratio mul 0.1234567 as F) => Items; A: Decimal(0,18) risky; B: Int64 risky; C: Decimal(2,18) risky; D: Decimal(9,18) risky; E: Decimal(9,18) risky; F: Decimal(9,18) risky
Items?$apply=compute(Price sub 1 as A,-Price as B,-Weight as C,-Code as D,Weight mul Weight as E) => Items; A: Decimal(9,18) risky; B: Decimal(9,18); C: Decimal(0,18); D: Int64 risky; E: Decimal(0,18) risky
Items?$apply=filter(Price eq Code and Weight lt Price and Ratio ge 0.5) => Items
// Booleans.
Items?$apply=filter(Fresh) => Items
Items?$apply=filter(Fresh eq null or Fresh ne (Code eq 1)) => Items
Items?$apply=compute(not Fresh as A,Fresh and true as B)/filter(A or B) => Items; A: Boolean; B: Boolean
Items?$apply=aggregate(Fresh with countdistinct as A,not Fresh with countdistinct as B) => -; A: Int64; B: Int64
Items?$apply=topcount(2,Fresh)/orderby(Fresh desc) => Items
// Days.
Items?$apply=filter(Made eq Opened and Shop/Before gt 2020-02-29) => Items
Items?$apply=aggregate(Made with min as A,Made with countdistinct as B,year(Made) with sum as C) => -; A: Date; B: Int64; C: Int64 risky
// Custom aggregates.
Items?$apply=aggregate(Heaviest,Kinds,Daily,Marked,Half,Low) => -; Heaviest: Decimal(0,18); Kinds: Int64; Daily: Decimal(9,18) risky; Marked: String; Half: Decimal(1,18) risky; Low: Decimal(2,18)
Items?$apply=groupby((Label),aggregate(Heaviest as Label2,Kinds as Code)) => -; Label2: Decimal(0,18); Code: Int64; Label: String declared
Shops?$apply=aggregate(Cities as Day) => -; Day: Int64
Shops?$apply=join(Items as I)/aggregate(Cities) => -; Cities: Int64
Shops?$apply=join(Items as I,aggregate(Heaviest,Daily)) => Shops; I/Heaviest: Decimal(0,18); I/Daily: Decimal(9,18) risky
Items?$apply=concat(top(1),skip(1))/aggregate(Marked) => -; Marked: String
// Sums and selections at each scale.
Items?$apply=aggregate(Price with sum as A,Ratio with sum as B,Weight with sum as C,Code with sum as D) => -; A: Decimal(9,18) risky; B: Decimal(2,18) risky; C: Decimal(0,18) risky; D: Int64 risky
Items?$apply=topsum(0.000000001,Price)/bottompercent(50,Weight)/topsum(1,Ratio) => Items
// Three hierarchies over two sets, keys of three kinds.
Items?$apply=groupby((rolluprecursive($root/Items,Tree,Code)),aggregate(Weight with sum as T)) => -; T: Decimal(0,18) risky; Code: Int64 declared
Items?$apply=groupby((rolluprecursive($root/Items,Copies,PartOf))) => -; PartOf: Int64 declared
Items?$apply=groupby((rolluprecursive($root/People,Tree,Label))) => -; Label: String declared
Items?$apply=groupby((rolluprecursive($root/Shops,Moves,Made,filter(City eq 'a'))),groupby((Code))) => -; Code: Int64 declared; Made: Date declared
Items?$apply=compute(Code add 1 as Next)/groupby((Fresh,rolluprecursive($root/Items,Tree,Next))) => -; Fresh: Boolean declared; Next: Int64 (may be refused)
Items?$apply=ancestors($root/Items,Tree,Whole/Code,identity)/descendants($root/Items,Copies,Copy/Copy/Twin,filter(Fresh),2) => Items
Items?$apply=traverse($root/Shops,Moves,Opened,preorder,City,Chief/Name desc) => Items
Items?$apply=traverse($root/People,Tree,Shop/ChiefID,postorder,Name) => Items
Shops?$apply=compute(1 as A)/traverse($root/Items,Tree,A,preorder,Weight mul Ratio,Fresh) => Shops; A: Int64 (may be refused)
// Joins in joins.
People?$apply=join(Shops as S,join(Items as I)) => People; S: Shops; S/I: Items
People?$apply=outerjoin(Shops as S,join(Items as I,aggregate($count as N))) => People; S: Shops absent; S/I/N: Int64 absent
People?$apply=join(Shops as S,outerjoin(Items as I))/groupby((S/I/Label,S/City,Name)) => -; S/I/Label: String declared; S/City: String declared; Name: String declared
People?$apply=outerjoin(Pupils as P,outerjoin(Pupils as P,groupby((Name)))) => People; P: People absent; P/P/Name: String declared absent
People?$apply=join(Pupils as P,join(Pupils as P))/filter(P/P/Mentor/Mentor/ID eq P/MentorID) => People; P: People; P/P: People
Shops?$apply=join(Items as I)/groupby((I/Shop/Former/City),aggregate(I/Price with max as Price)) => -; Price: Decimal(9,18); I/Shop/Former/City: String declared
Items?$apply=join(Parts as P,compute(Price as Q))/join(Parts as R) => Items; P: Items; R: Items; P/Q: Decimal(9,18)
// Concatenations of joins.
Shops?$apply=concat(join(Items as I,groupby((Label))),join(Items as I))/filter(I/Label eq 'a' and I/Code eq 1) => Shops; I: Items absent; I/Label: String declared absent
Shops?$apply=concat(outerjoin(Items as I,aggregate(Fresh with countdistinct as Code)),join(Items as I)) => Shops; I: Items absent; I/Code: Int64 absent
Shops?$apply=concat(join(Items as I),groupby((Day,City)),aggregate($count as I))/groupby((rollup($all,I,City))) => -; I: Int64 absent; City: String declared absent
People?$apply=concat(join(Shops as S,join(Items as I)),join(Shops as S)) => People; S: Shops; S/I: Items absent
// The nodes' path may be past its range, and the column that holds nodes is not.
Items?$apply=compute(Code add 1 as Next)/groupby((rolluprecursive($root/Items,Tree,Next)))/filter(Next gt 1) => -; Next: Int64 (may be refused)
Items?$apply=compute(Code add 1 as Next)/ancestors($root/Items,Tree,Next,top(1)) => Items; Next: Int64 risky (may be refused)
Items?$apply=descendants($root/Items,Tree,Code,aggregate(Code with sum as Code)) => Items (may be refused)
Items?$apply=compute(-Code as Next)/traverse($root/Items,Tree,Next,preorder) => Items; Next: Int64 risky (may be refused)
Items?$apply=filter(-Weight lt 0 and -Price lt -0.5) => Items
Items?$apply=aggregate(Half)/filter(Half gt 1) => -; Half: Decimal(1,18) risky (may be refused)
Items?$apply=aggregate(Low)/filter(Low gt 1) => -; Low: Decimal(2,18)
Items?$apply=aggregate(Daily,Kinds)/filter(Kinds gt 1)/filter(Daily gt 1) => -; Daily: Decimal(9,18) risky; Kinds: Int64 (may be refused)
";

/// Requests over them that have none.
pub(crate) const UNTYPED: &str = r"
// Scales.
Items?$apply=compute(Price mul Ratio as A) => at 1
Items?$apply=compute(Price mul 0.5 as A) => at 1
Items?$apply=filter(Ratio mul 0.12345678 gt 0) => at 1
Items?$apply=aggregate(Price mul Ratio with sum as A) => at 1
Items?$apply=topsum(1,Ratio mul Price) => at 1
// Kinds.
Items?$apply=filter(Weight) => at 1
Items?$apply=filter(Fresh gt false) => at 1
Items?$apply=filter(Made eq Label) => at 1
Items?$apply=filter(Made add 1 eq Made) => at 1
Items?$apply=aggregate(Fresh with max as A) => at 1
Items?$apply=aggregate(Fresh with sum as A) => at 1
Items?$apply=aggregate(not Fresh with min as A) => at 1
Items?$apply=bottomsum(1,Fresh) => at 1
Items?$apply=concat(aggregate(Weight with sum as T),aggregate(Code with sum as T)) => at 1
Items?$apply=concat(aggregate(Weight with sum as T),aggregate(Ratio with sum as T)) => at 1
// Custom aggregates.
Items?$apply=aggregate(Bare) => at 1
Items?$apply=aggregate(Cities) => at 1
Shops?$apply=aggregate(Heaviest) => at 1
Items?$apply=aggregate(Fresh) => at 1
Shops?$apply=join(Items as I,aggregate(Cities)) => at 1
Shops?$apply=join(Items as I)/aggregate(Heaviest) => at 2
Items?$apply=concat(identity,aggregate(Heaviest))/aggregate(Heaviest) => at 2
// Hierarchies: another set, another kind, another type.
Items?$apply=groupby((rolluprecursive($root/Items,Moves,Code))) => at 1
Items?$apply=groupby((rolluprecursive($root/People,Copies,Label))) => at 1
Items?$apply=groupby((rolluprecursive($root/Items,Tree,Label))) => at 1
Items?$apply=groupby((rolluprecursive($root/People,Tree,Code))) => at 1
Items?$apply=groupby((rolluprecursive($root/Shops,Moves,PartOf))) => at 1
Items?$apply=groupby((rolluprecursive($root/Items,Tree,Weight))) => at 1
Items?$apply=groupby((rolluprecursive($root/Items,Tree,Code,filter(City eq 'a')))) => at 1
Items?$apply=ancestors($root/Items,Copies,Shop/Day,identity) => at 1
Items?$apply=descendants($root/Shops,Moves,Made,groupby((Code),aggregate(Label with max as Made))) => at 1
Items?$apply=traverse($root/Shops,Moves,Opened,preorder,Label) => at 1
Items?$apply=traverse($root/People,Tree,Made,preorder) => at 1
// Prefixes.
People?$apply=join(Shops as S,join(Items as S)/join(Items as S)) => at 1
People?$apply=join(Shops as S,join(Items as I))/filter(S/I/Shop/Items/Code eq 1) => at 2
People?$apply=outerjoin(Shops as S,join(Items as I))/groupby((S/I/Label),groupby((Name),top(1))) => at 2
People?$apply=join(Shops as S)/compute(1 as S) => at 2
People?$apply=concat(join(Shops as S),join(Pupils as S)) => at 1
People?$apply=concat(outerjoin(Shops as S),join(Pupils as P),outerjoin(Pupils as S,groupby((Name))),join(Pupils as S)) => at 1
Shops?$apply=concat(join(Items as I,compute(1 as N)),join(Items as I,compute('a' as N))) => at 1
Shops?$apply=join(Items as I)/join(Items as J,join(Parts as P))/join(I as K) => at 3
Items?$apply=join(Whole as W) => at 1
Items?$apply=groupby((Label),join(Parts as Label)) => at 1
Items?$apply=groupby((Shop/City),join(Parts as Shop)) => at 1
";

/// Requests whose names are words of the grammar, with a typing.
pub(crate) const WORDS_TYPED: &str = r"
// Names that are words of the grammar.
count?$apply=filter(filter) => count
count?$apply=compute(rollup mul year as A,top add year as sum)/filter(sum eq A) => count; A: Decimal(9,18) risky; sum: Int64 risky (may be refused)
count?$apply=groupby((filter,rollup(rollup,top)),aggregate($count as start)) => -; start: Int64; filter: Boolean declared; rollup: Decimal(9,18) declared; top: Int64 declared absent
count?$apply=groupby((rolluprecursive($root/count,keep,identity/identity/year,top(1))),aggregate(start as top,rollup with max as rollup)) => -; top: Decimal(9,18) risky; rollup: Decimal(9,18); identity/identity/year: Int64 declared
count?$apply=join(concat as start,aggregate(start))/orderby(start/start) => count; start/start: Decimal(9,18) risky (may be refused)
count?$apply=outerjoin(concat as skip,top(1))/topcount(1,skip/filter) => count; skip: count absent
count?$apply=ancestors($root/count,keep,top,filter(filter),1,keep start)/traverse($root/count,keep,year,preorder,rollup) => count
count?$apply=aggregate(rollup with sum as groupby,year with min as top,start) => -; groupby: Decimal(9,18) risky; top: Int64; start: Decimal(9,18) risky
";

/// Such requests without one.
pub(crate) const WORDS_UNTYPED: &str = r"
// Names that are words of the grammar.
count?$apply=filter(top) => at 1
count?$apply=filter(filter gt true) => at 1
count?$apply=compute(1 as concat) => at 1
count?$apply=compute(1 as filter) => at 1
count?$apply=compute(rollup mul 0.5 as A) => at 1
count?$apply=groupby((rollup(filter,rollup),year,rollup)) => at 1
count?$apply=groupby((rolluprecursive($root/count,keep,rollup))) => at 1
count?$apply=join(identity as A) => at 1
count?$apply=aggregate(start,rollup with min as start) => at 1
count?$apply=aggregate(start)/aggregate(start) => at 2
";
