//! What requests for plans are answered by, and that `--plan` changes none of these answers.
use crate::lines::expect_answers;
use std::test::Fail;
use test_support::samples::{SALES_DATA, SAMPLE};

/// Requests for plans over the sample, with the answers that a reference program gives.
const PLANS: &[(&str, &str, &str)] = &[
    (
        "explain Sales?$apply=compute(Amount add 1 as X)/filter(ID eq 1 and Amount gt 2)",
        "200",
        "{\"plan\":\"filter(ID eq 1)/filter(Amount gt 2)/compute(Amount add 1 as X)\"}",
    ),
    (
        "explain Sales?$apply=compute(Amount add 1 as X)/filter(X gt 2)",
        "200",
        "{\"plan\":\"compute(Amount add 1 as X)/filter(X gt 2)\"}",
    ),
    (
        "explain Sales?$apply=topcount(3,Amount)/identity/topcount(2,Amount)",
        "200",
        "{\"plan\":\"topcount(2,Amount)\"}",
    ),
    (
        "explain Sales?$apply=orderby(ID)/aggregate($count as N)",
        "200",
        "{\"plan\":\"aggregate($count as N)\"}",
    ),
    (
        "explain Sales?$apply=identity/filter(ID eq 1)/identity",
        "200",
        "{\"plan\":\"filter(ID eq 1)\"}",
    ),
    (
        "explain Sales?$apply=identity",
        "200",
        "{\"plan\":\"identity\"}",
    ),
    (
        "explain Sales?$apply=identity/identity",
        "200",
        "{\"plan\":\"identity\"}",
    ),
    (
        "explain Sales?$apply=filter(ID eq 1 and Amount gt 2)",
        "200",
        "{\"plan\":\"filter(ID eq 1)/filter(Amount gt 2)\"}",
    ),
    (
        "explain Sales?$apply=filter(ID eq 1 and (Amount gt 2 and OrgID ne null))",
        "200",
        "{\"plan\":\"filter(ID eq 1)/filter(Amount gt 2)/filter(OrgID ne null)\"}",
    ),
    (
        "explain Sales?$apply=filter(ID eq 1 and ID add 1 gt 2)",
        "200",
        "{\"plan\":\"filter(ID eq 1 and ID add 1 gt 2)\"}",
    ),
    (
        "explain Sales?$apply=filter(ID add 1 gt 2 and ID eq 1)",
        "200",
        "{\"plan\":\"filter(ID add 1 gt 2)/filter(ID eq 1)\"}",
    ),
    (
        "explain Sales?$apply=filter(true)",
        "200",
        "{\"plan\":\"identity\"}",
    ),
    (
        "explain Sales?$apply=filter(true)/top(2)",
        "200",
        "{\"plan\":\"top(2)\"}",
    ),
    (
        "explain Sales?$apply=compute(Amount add 1 as X)/filter(ID eq 1)",
        "200",
        "{\"plan\":\"filter(ID eq 1)/compute(Amount add 1 as X)\"}",
    ),
    (
        "explain Sales?$apply=compute(Amount add 1 as X)/filter(X gt 2)/filter(ID eq 1)",
        "200",
        "{\"plan\":\"compute(Amount add 1 as X)/filter(X gt 2)/filter(ID eq 1)\"}",
    ),
    (
        "explain Sales?$apply=compute(Amount as X)/filter(X gt 2)/filter(ID eq 1)",
        "200",
        "{\"plan\":\"filter(ID eq 1)/compute(Amount as X)/filter(X gt 2)\"}",
    ),
    (
        "explain Sales?$apply=orderby(Amount)/filter(ID eq 1)/top(1)",
        "200",
        "{\"plan\":\"filter(ID eq 1)/orderby(Amount)/top(1)\"}",
    ),
    (
        "explain Sales?$apply=orderby(Amount add 1)/filter(ID eq 1)",
        "200",
        "{\"plan\":\"orderby(Amount add 1)/filter(ID eq 1)\"}",
    ),
    (
        "explain Sales?$apply=orderby(Amount desc)/aggregate(Amount with sum as T)",
        "200",
        "{\"plan\":\"aggregate(Amount with sum as T)\"}",
    ),
    (
        "explain Sales?$apply=orderby(Amount add 1)/aggregate(Amount with sum as T)",
        "200",
        "{\"plan\":\"orderby(Amount add 1)/aggregate(Amount with sum as T)\"}",
    ),
    (
        "explain Sales?$apply=topcount(3,Amount)/topcount(5,Amount)",
        "200",
        "{\"plan\":\"topcount(3,Amount)\"}",
    ),
    (
        "explain Sales?$apply=topcount(3,Amount)/topcount(2,ID)",
        "200",
        "{\"plan\":\"topcount(3,Amount)/topcount(2,ID)\"}",
    ),
    (
        "explain Sales?$apply=bottomcount(3,Amount)/bottomcount(2,Amount)",
        "200",
        "{\"plan\":\"bottomcount(3,Amount)/bottomcount(2,Amount)\"}",
    ),
    (
        "explain Sales?$apply=concat(orderby(ID)/filter(ID eq 1),identity/top(2))",
        "200",
        "{\"plan\":\"concat(filter(ID eq 1)/orderby(ID),top(2))\"}",
    ),
    (
        "explain Customers?$apply=join(Sales as S,orderby(Amount)/filter(ID gt 2 and OrgID eq 'US'))/identity",
        "200",
        "{\"plan\":\"join(Sales as S,filter(ID gt 2)/filter(OrgID eq 'US')/orderby(Amount))\"}",
    ),
    (
        "explain Sales?$apply=groupby((rolluprecursive($root/Orgs,OrgTree,OrgID,identity/filter(ID eq 'US'))),aggregate(Amount with sum as T))",
        "200",
        "{\"plan\":\"groupby((rolluprecursive($root/Orgs,OrgTree,OrgID,filter(ID eq 'US'))),aggregate(Amount with sum as T))\"}",
    ),
    (
        "explain Sales?$apply=groupby((rolluprecursive($root/Orgs,OrgTree,OrgID)),aggregate(Amount with sum as T))",
        "200",
        "{\"plan\":\"groupby((rolluprecursive($root/Orgs,OrgTree,OrgID)),aggregate(Amount with sum as T))\"}",
    ),
    (
        "explain Sales?$apply=groupby((ID))",
        "200",
        "{\"plan\":\"groupby((ID))\"}",
    ),
    (
        "explain Sales?$apply=aggregate(Amount with sum as T)",
        "200",
        "{\"plan\":\"aggregate(Amount with sum as T)\"}",
    ),
    (
        "explain Sales?$apply=filter(OrgID eq 'a%22b%0A%5C')",
        "200",
        "{\"plan\":\"filter(OrgID eq 'a\\\"b\\n\\\\')\"}",
    ),
    (
        "explain Sales?$apply=filter(true)/identity/filter(true)",
        "200",
        "{\"plan\":\"identity\"}",
    ),
    (
        "explain Sales?$apply=groupby((OrgID),orderby(ID)/filter(ID gt 1)/aggregate($count as N))",
        "200",
        "{\"plan\":\"groupby((OrgID),filter(ID gt 1)/aggregate($count as N))\"}",
    ),
    (
        "explain Sales?$apply=ancestors($root/Orgs,OrgTree,OrgID,filter(true)/filter(ID eq 1),keep start)",
        "200",
        "{\"plan\":\"ancestors($root/Orgs,OrgTree,OrgID,filter(ID eq 1),keep start)\"}",
    ),
    (
        "explain Shops?$apply=identity",
        "404",
        "{\"error\":{\"code\":\"NotFound\",\"message\":\"no such entity set\",\"target\":\"Shops\"}}",
    ),
    (
        "explain Sales?$apply=identity/",
        "400",
        "{\"error\":{\"code\":\"Syntax\",\"message\":\"the text is no pipeline\",\"target\":\"2\"}}",
    ),
    (
        "explain Sales?$apply=compute(Amount as X)/orderby(X)/filter(ID eq 1)/filter(Amount gt 2)",
        "200",
        "{\"plan\":\"filter(ID eq 1)/filter(Amount gt 2)/compute(Amount as X)/orderby(X)\"}",
    ),
];

/// The same, of rules through groupings, concatenations and joins.
const PLANS_2: &[(&str, &str, &str)] = &[
    (
        "Sales?$apply=groupby((rolluprecursive($root/Orgs,OrgTree,OrgID)),aggregate(Amount with sum as T))/filter(OrgID eq 'US')",
        "200",
        "{\"@context\":\"$metadata#Sales(OrgID,T)\",\"value\":[{\"OrgID\":\"US\",\"T@type\":\"Decimal\",\"T\":\"17.75\"}]}",
    ),
    (
        "explain Sales?$apply=groupby((rolluprecursive($root/Orgs,OrgTree,OrgID)),aggregate(Amount with sum as T))/filter(OrgID eq 'US')",
        "200",
        "{\"plan\":\"groupby((rolluprecursive($root/Orgs,OrgTree,OrgID,filter(ID eq 'US'))),aggregate(Amount with sum as T))\"}",
    ),
    (
        "explain Sales?$apply=concat(filter(ID eq 1),filter(ID eq 1))",
        "200",
        "{\"plan\":\"filter(ID eq 1)/concat(identity,identity)\"}",
    ),
    (
        "explain Sales?$apply=groupby((Customer/Country),aggregate(Amount with sum as T))/filter(Customer/Country eq 'US')",
        "200",
        "{\"plan\":\"filter(Customer/Country eq 'US')/groupby((Customer/Country),aggregate(Amount with sum as T))\"}",
    ),
    (
        "explain Sales?$apply=groupby((Customer/Country),aggregate(Amount with sum as T))/filter(T gt 5)",
        "200",
        "{\"plan\":\"groupby((Customer/Country),aggregate(Amount with sum as T))/filter(T gt 5)\"}",
    ),
    (
        "explain Sales?$apply=groupby((Customer/Country),aggregate(Amount with sum as T))/filter(T gt 5)/filter(Customer/Country eq 'US')",
        "200",
        "{\"plan\":\"groupby((Customer/Country),aggregate(Amount with sum as T))/filter(T gt 5)/filter(Customer/Country eq 'US')\"}",
    ),
    (
        "explain Sales?$apply=groupby((OrgID),filter(Amount add 1 gt 2)/aggregate($count as N))/filter(OrgID eq 'US')",
        "200",
        "{\"plan\":\"groupby((OrgID),filter(Amount add 1 gt 2)/aggregate($count as N))/filter(OrgID eq 'US')\"}",
    ),
    (
        "explain Sales?$apply=groupby((Customer/Country,OrgID),compute(ID add 1 as X)/aggregate(ID with max as M))/filter(OrgID eq 'US' or Customer/Country eq 'US')",
        "200",
        "{\"plan\":\"filter(OrgID eq 'US' or Customer/Country eq 'US')/groupby((Customer/Country,OrgID),compute(ID add 1 as X)/aggregate(ID with max as M))\"}",
    ),
    (
        "explain Sales?$apply=groupby((rollup(Customer/Country,OrgID)),aggregate($count as N))/filter(Customer/Country eq 'US')",
        "200",
        "{\"plan\":\"filter(Customer/Country eq 'US')/groupby((rollup(Customer/Country,OrgID)),aggregate($count as N))\"}",
    ),
    (
        "explain Sales?$apply=groupby((rollup(Customer/Country,OrgID)),aggregate($count as N))/filter(OrgID eq 'US')",
        "200",
        "{\"plan\":\"groupby((rollup(Customer/Country,OrgID)),aggregate($count as N))/filter(OrgID eq 'US')\"}",
    ),
    (
        "explain Sales?$apply=groupby((rollup($all,OrgID)),aggregate($count as N))/filter(OrgID eq 'US')",
        "200",
        "{\"plan\":\"groupby((rollup($all,OrgID)),aggregate($count as N))/filter(OrgID eq 'US')\"}",
    ),
    (
        "explain Sales?$apply=groupby((CustomerID,rollup($all,OrgID)),aggregate($count as N))/filter(CustomerID eq 'C1')",
        "200",
        "{\"plan\":\"filter(CustomerID eq 'C1')/groupby((CustomerID,rollup($all,OrgID)),aggregate($count as N))\"}",
    ),
    (
        "explain Sales?$apply=concat(filter(ID gt 1),top(2))/filter(ID eq 1)",
        "200",
        "{\"plan\":\"concat(filter(ID gt 1)/filter(ID eq 1),top(2)/filter(ID eq 1))\"}",
    ),
    (
        "explain Sales?$apply=concat(compute(1 as X),compute(ID as Y))/filter(X eq 1)",
        "200",
        "{\"plan\":\"concat(compute(1 as X),compute(ID as Y))/filter(X eq 1)\"}",
    ),
    (
        "explain Sales?$apply=concat(orderby(ID)/top(1),orderby(ID)/skip(1))",
        "200",
        "{\"plan\":\"orderby(ID)/concat(top(1),skip(1))\"}",
    ),
    (
        "explain Sales?$apply=concat(top(1),top(1)/skip(1))",
        "200",
        "{\"plan\":\"top(1)/concat(identity,skip(1))\"}",
    ),
    (
        "explain Sales?$apply=concat(identity,identity/top(1))",
        "200",
        "{\"plan\":\"concat(identity,top(1))\"}",
    ),
    (
        "explain Sales?$apply=concat(top(1),top(2))",
        "200",
        "{\"plan\":\"concat(top(1),top(2))\"}",
    ),
    (
        "explain Sales?$apply=concat(compute(1 as X),compute(1 as X)/filter(ID eq 1))",
        "200",
        "{\"plan\":\"concat(compute(1 as X),filter(ID eq 1)/compute(1 as X))\"}",
    ),
    (
        "explain Customers?$apply=join(Sales as S)/filter(S/Amount gt 5)",
        "200",
        "{\"plan\":\"join(Sales as S,filter(Amount gt 5))\"}",
    ),
    (
        "explain Customers?$apply=join(Sales as S)/filter(Country eq 'US')",
        "200",
        "{\"plan\":\"filter(Country eq 'US')/join(Sales as S)\"}",
    ),
];

/// The same, of rules through joins and hierarchies.
const PLANS_3: &[(&str, &str, &str)] = &[
    (
        "explain Customers?$apply=join(Sales as S)/filter(Country eq 'US' or S/Amount gt 5)",
        "200",
        "{\"plan\":\"join(Sales as S)/filter(Country eq 'US' or S/Amount gt 5)\"}",
    ),
    (
        "explain Customers?$apply=join(Sales as S,filter(ID add 1 gt 2))/filter(Country eq 'US')",
        "200",
        "{\"plan\":\"join(Sales as S,filter(ID add 1 gt 2))/filter(Country eq 'US')\"}",
    ),
    (
        "explain Customers?$apply=join(Sales as S,top(3))/filter(S/Amount gt 5)/filter(Country eq 'US')",
        "200",
        "{\"plan\":\"filter(Country eq 'US')/join(Sales as S,top(3)/filter(Amount gt 5))\"}",
    ),
    (
        "explain Customers?$apply=outerjoin(Sales as S)/filter(S/Amount gt 5)",
        "200",
        "{\"plan\":\"outerjoin(Sales as S)/filter(S/Amount gt 5)\"}",
    ),
    (
        "explain Customers?$apply=outerjoin(Sales as S)/filter(Country eq 'US')",
        "200",
        "{\"plan\":\"filter(Country eq 'US')/outerjoin(Sales as S)\"}",
    ),
    (
        "explain Customers?$apply=outerjoin(Sales as S,filter(ID add 1 gt 2))/filter(Country eq 'US')",
        "200",
        "{\"plan\":\"outerjoin(Sales as S,filter(ID add 1 gt 2))/filter(Country eq 'US')\"}",
    ),
    (
        "explain Customers?$apply=join(Sales as S)/join(Sales as T)/filter(T/Amount gt 5)/filter(Country eq 'XX')",
        "200",
        "{\"plan\":\"filter(Country eq 'XX')/join(Sales as S)/join(Sales as T,filter(Amount gt 5))\"}",
    ),
    (
        "explain Orgs?$apply=traverse($root/Orgs,OrgTree,ID,preorder)/filter(ID eq 'US')",
        "200",
        "{\"plan\":\"filter(ID eq 'US')/traverse($root/Orgs,OrgTree,ID,preorder)\"}",
    ),
    (
        "explain Orgs?$apply=traverse($root/Orgs,OrgTree,ID,preorder,ID desc)/filter(length(ID) add 1 gt 2)",
        "200",
        "{\"plan\":\"traverse($root/Orgs,OrgTree,ID,preorder,ID desc)/filter(length(ID) add 1 gt 2)\"}",
    ),
    (
        "explain Sales?$apply=ancestors($root/Orgs,OrgTree,OrgID,filter(ID eq 1)/orderby(ID))",
        "200",
        "{\"plan\":\"ancestors($root/Orgs,OrgTree,OrgID,filter(ID eq 1))\"}",
    ),
    (
        "explain Sales?$apply=ancestors($root/Orgs,OrgTree,OrgID,filter(ID eq 1)/orderby(ID add 1))",
        "200",
        "{\"plan\":\"ancestors($root/Orgs,OrgTree,OrgID,filter(ID eq 1)/orderby(ID add 1))\"}",
    ),
    (
        "explain Sales?$apply=descendants($root/Orgs,OrgTree,OrgID,top(2)/compute(ID as X)/orderby(X),2,keep start)",
        "200",
        "{\"plan\":\"descendants($root/Orgs,OrgTree,OrgID,top(2),2,keep start)\"}",
    ),
    (
        "explain Sales?$apply=descendants($root/Orgs,OrgTree,OrgID,orderby(ID))",
        "200",
        "{\"plan\":\"descendants($root/Orgs,OrgTree,OrgID,identity)\"}",
    ),
    (
        "explain Sales?$apply=groupby((CustomerID,rolluprecursive($root/Orgs,OrgTree,OrgID)),aggregate($count as N))/filter(CustomerID eq 'C1')",
        "200",
        "{\"plan\":\"filter(CustomerID eq 'C1')/groupby((CustomerID,rolluprecursive($root/Orgs,OrgTree,OrgID)),aggregate($count as N))\"}",
    ),
    (
        "explain Sales?$apply=groupby((rolluprecursive($root/Orgs,OrgTree,OrgID)),aggregate($count as N))/filter(OrgID eq 'US')",
        "200",
        "{\"plan\":\"groupby((rolluprecursive($root/Orgs,OrgTree,OrgID,filter(ID eq 'US'))),aggregate($count as N))\"}",
    ),
    (
        "explain Sales?$apply=groupby((rolluprecursive($root/Orgs,OrgTree,OrgID,top(3))),aggregate($count as N))/filter(N gt 1)/filter(OrgID eq 'US')",
        "200",
        "{\"plan\":\"groupby((rolluprecursive($root/Orgs,OrgTree,OrgID,top(3)/filter(ID eq 'US'))),aggregate($count as N))/filter(N gt 1)\"}",
    ),
    (
        "explain Sales?$apply=groupby((CustomerID,rolluprecursive($root/Orgs,OrgTree,OrgID)),aggregate($count as N))/filter(CustomerID eq 'C1' or OrgID eq 'US')",
        "200",
        "{\"plan\":\"groupby((CustomerID,rolluprecursive($root/Orgs,OrgTree,OrgID)),aggregate($count as N))/filter(CustomerID eq 'C1' or OrgID eq 'US')\"}",
    ),
    (
        "explain Sales?$apply=groupby((CustomerID,rolluprecursive($root/Orgs,OrgTree,OrgID)),aggregate($count as N))/filter(OrgID eq 'US' and CustomerID eq 'C1')",
        "200",
        "{\"plan\":\"filter(CustomerID eq 'C1')/groupby((CustomerID,rolluprecursive($root/Orgs,OrgTree,OrgID,filter(ID eq 'US'))),aggregate($count as N))\"}",
    ),
    (
        "explain Sales?$apply=concat(groupby((Customer/Country),aggregate(Amount with sum as T))/filter(Customer/Country eq 'US'),aggregate($count as N))",
        "200",
        "{\"plan\":\"concat(filter(Customer/Country eq 'US')/groupby((Customer/Country),aggregate(Amount with sum as T)),aggregate($count as N))\"}",
    ),
    (
        "explain Customers?$apply=join(Sales as S,groupby((OrgID))/filter(OrgID eq 'US'))/filter(Country eq 'US')",
        "200",
        "{\"plan\":\"filter(Country eq 'US')/join(Sales as S,filter(OrgID eq 'US')/groupby((OrgID)))\"}",
    ),
];

#[test]
fn an_explain_is_answered_by_the_plan_whatever_is_run(rt: HostRuntime) -> Result<(), Fail> {
    for plans in [PLANS, PLANS_2, PLANS_3] {
        expect_answers(&rt, rt.alloc(), SAMPLE, SALES_DATA, plans)?;
    }
    Ok(())
}
